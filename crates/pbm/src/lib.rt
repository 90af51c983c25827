// Raw PBM, the bitmap format of Netpbm: a header, and then row after row.
#![tactic(auto)]

mod header;
mod row;

pub use header::write_header;
pub use row::write_row;
