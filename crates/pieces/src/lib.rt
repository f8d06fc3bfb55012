// The bytes that a text stands for: pieces with commas between them, each byte three characters, and a piece's bytes so many times.
#![tactic(auto)]

ghost use Rattle.std.specs.Prelude.{◌≤◌, length};
ghost use Rattle.std.specs.Option.{IfSome};

// The place of the first byte x from `from` on and below `to`, and `to` where there is none.
pub fn find(text: &[u8], from: usize, to: usize, x: u8) -> usize
    requires ordered { from ≤ to }
    requires inside { to ≤ length text.now }
    ensures { (from ≤ result) × (result ≤ to) }
{
    match text[from..to].iter().position(|&byte| byte == x) {
        Some(i) => from + i,
        None => to,
    }
}

// What a hexadecimal digit stands for.
fn digit(x: u8) -> Option<u8>
    ensures { IfSome result (λ d. d ≤ 15) }
{
    match x {
        b'0'..=b'9' => Some(x - b'0'),
        b'a'..=b'f' => Some(x - b'a' + 10),
        _ => None,
    }
}

// The number of decimal digits after a space.
pub fn decimal(text: &[u8]) -> Option<usize> {
    let (&space, digits) = text.split_first()?;
    if space != b' ' || digits.is_empty() {
        return None;
    }
    let mut n = 0;
    for &x in digits {
        if !x.is_ascii_digit() || 99999 < n {
            return None;
        }
        n = n * 10 + usize::from(x - b'0');
    }
    Some(n)
}

// A byte's three characters, the k-th time.
fn byte(sign: u8, high: u8, low: u8, k: usize) -> Option<u8> {
    let x = digit(high)? * 16 + digit(low)?;
    let times = (k % 256) as u8;
    match sign {
        b' ' => Some(x),
        b'+' => Some(x.wrapping_add(times)),
        b'-' => Some(x.wrapping_sub(times)),
        _ => None,
    }
}

// Appends the text's bytes so many times to the n that there are; answers how many there are then, where the text is right and there is room.
fn repeated(bytes: &mut [u8], n: usize, text: &[u8], times: usize) -> Option<usize> {
    if text.is_empty() {
        return None;
    }
    let mut m = n;
    for k in 0..times {
        for three in text.chunks_exact(3) {
            let x = byte(three[0], three[1], three[2], k)?;
            *bytes.get_mut(m)? = x;
            m += 1;
        }
        if text.len() % 3 != 0 {
            return None;
        }
    }
    Some(m)
}

// Appends a piece. A count that is wrong is more than there is room for.
fn piece(bytes: &mut [u8], n: usize, text: &[u8]) -> Option<usize> {
    let end = find(text, 0, text.len(), b'*');
    if end == text.len() {
        return repeated(bytes, n, text, 1);
    }
    let start = end + 1;
    let times = decimal(&text[..end]).unwrap_or(usize::MAX);
    if times == 0 {
        return None;
    }
    repeated(bytes, n, &text[start..], times)
}

// Appends the pieces of a text.
pub fn appended(bytes: &mut [u8], n: usize, text: &[u8]) -> Option<usize> {
    if text.is_empty() {
        return Some(n);
    }
    let mut m = n;
    let mut at = 0;
    while at < text.len() {
        let end = find(text, at, text.len(), b',');
        m = piece(bytes, m, &text[at..end])?;
        if end == text.len() {
            return Some(m);
        }
        at = end + 1;
    }
    None
}
