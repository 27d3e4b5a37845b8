// The listing of request records as definitions that compute: a line, a whole text, and a text that comes in parts. That listing and writing lead
// back to each other is proved of them; there is no code here.
#![tactic(auto)]

// The two ways: lines go to records, or records to lines. A program is one of them by this constant; where they part, a match is plainer than a trait.
#[derive(Clone, Copy)]
pub enum Way {
    ToRecords,
    ToListing,
}
