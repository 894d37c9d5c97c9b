ghost use Rattle.std.specs.Prelude.{◌≡◌, ◌==◌, ◌-◌, ◌≤◌, if◌then◌else◌};

/// How many columns of its tile are left from the next column on, if `left` are left from this one on. Each tile counts
/// as `side` columns, also the last of a row. After the last column the next tile begins.
pub fn next_left(left: u32, side: u32) -> u32
    requires within { (1 ≤ left) × (left ≤ side) }
    ensures within { (1 ≤ result) × (result ≤ side) }
    ensures next { result ≡ (if left == 1 then side else left - 1) }
{
    if left == 1 { side } else { left - 1 }
}
