// Windows metafiles as bytes: the header, how records lie in a file, and what each record asks for.
#![tactic(auto)]

mod bytes;
mod checked;
mod decoding;
mod fault;
mod frame;
mod header;
mod logical;
mod record;
mod record_type;
#[cfg(test)]
mod tests;

pub use checked::Checked;
pub use decoding::{decode, decoding_is_exact};
pub use fault::{FileFault, Layer};
pub use frame::{Frame, frame_at};
pub use header::check;
pub use logical::{LogicalArea, LogicalPoint};
pub use record::Record;
pub use record_type::{RecordType, UnlistedFunction, record_name};
