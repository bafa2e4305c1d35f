//! Columns in units of UTF-16.
ghost use Rattle.std.specs.Prelude.{◌≡◌, ◌≤◌, length};
ghost use Rattle.tb_basic_places.specs.Columns.{LeadsBack, left_after, place_at, units, units_of};

// How many units a byte of UTF-8 begins.
fn units(byte: u8) -> usize
    ensures value { result ≡ units byte }
    ensures few { result ≤ 2 }
{
    match byte {
        0..=127 => 1,
        128..=191 => 0,
        192..=239 => 1,
        _ => 2,
    }
}

/// The column after these bytes of a line.
pub fn column(bytes: &[u8]) -> usize
    ensures { result ≡ units_of bytes.now }
{
    let mut sum = 0;
    for byte in bytes {
        sum += units(*byte);
    }
    sum
}

// What is left of a column after a byte; `None` where it goes beyond the column.
fn left_after(column: usize, byte: u8) -> Option<usize>
    ensures { result ≡ left_after column byte }
{
    if matches!(byte, 128..=191) {
        return Some(column);
    }
    let width = units(byte);
    if column < width {
        None
    } else {
        Some(column - width)
    }
}

// How many bytes of a line are before a column.
fn bytes_before(bytes: &[u8], column: usize) -> usize
    ensures value { result ≡ place_at column bytes.now }
    ensures within { result ≤ length bytes.now }
{
    let mut left = column;
    for (i, byte) in bytes.iter().enumerate() {
        match left_after(left, *byte) {
            Some(rest) => left = rest,
            None => return i,
        }
    }
    bytes.len()
}

/// How many bytes of a line are before a column: within a character its beginning, behind the line's end that.
pub fn place_at(bytes: &[u8], column: usize) -> usize
    ensures value { result ≡ place_at column bytes.now }
    ensures within { result ≤ length bytes.now }
    // It leads back from the column of a place where a character begins.
    ensures back { LeadsBack column bytes.now result }
{
    bytes_before(bytes, column)
}
