// A constant's number. A table keeps its bits.
ghost use Rattle.std.specs.Prelude.{◌≡◌, ℕ, ◌≤◌};
ghost use Rattle.paper.specs.Ledger.{constant};
ghost use Rattle.table.specs.View.{kind_from};

use numbers::sign;

// The number that a constant's bits stand for. No table keeps more bits than the kind has, so none are cut off here.
pub fn constant_of(k: u32, a: u64) -> i64
    requires { k ≤ 4 }
    ensures { (e : ℕ) → kind_from k a e ≡ constant k result }
{
    match k {
        0 => sign::signed::<1>(a.min(255)),
        1 => sign::signed::<2>(a.min(65535)),
        2 => sign::signed::<4>(a.min(4294967295)),
        _ => sign::signed::<8>(a),
    }
}
