// What a step answers where nothing is refused.
#[derive(Clone, Copy, PartialEq, Eq, Debug)]
pub enum Answer {
    // The record's effect was taken.
    Taken,
    // The record's function is not in the record table.
    PassedOver,
    // The end record was reached, now or earlier.
    Ended,
}
