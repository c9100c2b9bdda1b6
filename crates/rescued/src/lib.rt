// What a call of the salvage run over bytes answers: its form, and that it is one. Definitions in specs/, theorems in proofs/; the call itself is code of another crate.

#![tactic(auto)]

// What a call answers: the number, the bytes taken of the part, the bytes written, the entries of the report, the most bytes that
// waited at once, and the count of visits.
#[derive(Clone, Copy)]
pub struct SalvageCounts {
    pub number: usize,
    pub taken: usize,
    pub written: usize,
    pub reported: usize,
    pub waited: usize,
    pub visits: u64,
}
