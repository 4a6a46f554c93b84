//! Where two strings of bytes differ.
ghost use Rattle.hoa_text.specs.Differences.{FirstDifference};

/// The least place where two strings of bytes differ, the end of the shorter being one; none exactly where they are alike.
pub fn difference(a: &[u8], b: &[u8]) -> Option<usize>
    ensures { FirstDifference a.now b.now result }
{
    let within = a.iter().zip(b).position(|(x, y)| x != y);
    if within.is_none() && a.len() != b.len() {
        return Some(a.len().min(b.len()));
    }
    within
}
