// The secondary map on paper: its calls as definitions, what whole means, and the theorems over them.
// The only code is the header that the calls take and give back.
#![tactic(auto)]

// The two numbers of a map: slots and elements.
#[derive(Clone, Copy)]
pub struct MapHeader {
    pub s: u32,
    pub count: u32,
}
