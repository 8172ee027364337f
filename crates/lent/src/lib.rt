// Signed numbers read into naturals and written from them, in lent memory. Nothing here knows of planning.
#![tactic(auto)]

ghost use Rattle.std.specs.Prelude.{◌≡◌, ◌++◌, map, ℕ, ◌+◌, ◌<◌, ◌≤◌, length, get_or, drop, ℤ, pos, neg_ℤ, nat_abs, ◌+ℤ◌};
ghost use Rattle.std.proofs.Math.IntN.{sub_ℕ};
ghost use Rattle.lent.specs.Sizes.{signed_end};

// The first numbers of the slice become −d[0], −d[1] and so on; what was after them stays.
pub fn put_negated(s: &mut [i32], d: &[u32])
    requires d_in_bounds { length d.now ≤ length s.old }
    requires by_index { (k : ℕ) → k < length d.now → get_or d.now k 0 < signed_end }
    ensures { s.new ≡ map (λ (m : ℕ). neg_ℤ (pos m)) d.now ++ drop (length d.now) s.old }
{
    // By an index: `s.iter_mut().zip(d)` was tried, and does not prove: after it a proof knows the length of `s`, and not its elements.
    for (i, m) in d.iter().enumerate() {
        s[i] = -(*m as i32);
    }
}

// The natural number c + by, where it is one and in range.
pub fn lifted(c: i32, by: u32) -> u32
    requires { (by < signed_end) × ((b : ℕ) × ((c +ℤ pos by ≡ pos b) × (b < signed_end))) }
    ensures { result ≡ nat_abs (c +ℤ pos by) }
{
    (c + (by as i32)) as u32
}

// The whole number e − by.
pub fn lowered(e: u32, by: u32) -> i32
    requires { (e < signed_end) × (by < signed_end) }
    ensures { result ≡ sub_ℕ e by }
{
    (e as i32) - (by as i32)
}
