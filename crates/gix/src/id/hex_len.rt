ghost use Rattle.std.specs.Prelude.{◌≤◌};
ghost use Rattle.gix.specs.HexLen.{HasBits, IsAutoHexLen};

/// How many digits an id is abbreviated to, where that is not chosen, among so many objects.
///
/// ```
/// let len = calculate_auto_hex_len(16384);
/// ```
pub fn calculate_auto_hex_len(n: u64) -> usize
    ensures len { IsAutoHexLen n result }
    ensures least { 7 ≤ result }
    ensures most { result ≤ 32 }
{
    let half = bits_of(n).div_ceil(2) as usize;
    half.max(7)
}

/// How many binary digits a number has.
fn bits_of(n: u64) -> u32
    ensures bits { HasBits n result }
    ensures most { result ≤ 64 }
{
    if n == 0 { 0 } else { n.ilog2() + 1 }
}
