// The dense table on paper: its calls as definitions, what sound means, and the theorems of one call.
// The only code is the header that the calls take and give back.
#![tactic(auto)]

// The three numbers of a table: elements, slots, and the slot that the next insert takes.
#[derive(Clone, Copy)]
pub struct Header {
    pub n: u32,
    pub s: u32,
    pub f: u32,
}
