// What an audit of a kept list finds: of what can be wrong with it, the first that holds.
#![tactic(auto)]

#[derive(Drop)]
pub enum Finding {
    Sound,
    // the mark's place
    BadMark(usize),
    LostFault(usize),
    // the lower fault, the higher one
    LostPair(usize, usize),
    SparePattern(usize),
}
