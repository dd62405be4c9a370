//! Whether a name matches a pattern.
ghost use Rattle.std.specs.Prelude.{◌≡◌, ◌+◌, ◌<◌, IsTrue, true, not, length, drop};
ghost use Rattle.std.specs.List.{list_any};
ghost use Rattle.glob.specs.Match as spec;
ghost use Rattle.glob.specs.Plain.{is_wild, MatchesItselfAlone};
ghost use Rattle.glob.specs.Segments.{IsLaid, is_whole as whole};

use texts::after;

/// What comes of laying a pattern on a name: both end, a `*` stands after so many bytes of the pattern that fit, or a byte
/// does not match.
#[derive(Clone, Copy)]
pub enum Laid {
    Whole,
    Star(usize),
    Fails,
}

fn is_whole(laid: Laid) -> bool
    ensures { result ≡ whole laid }
{
    match laid {
        Laid::Whole => true,
        Laid::Star(_) | Laid::Fails => false,
    }
}

// What follows the byte at a place.
fn past(s: &[u8], place: usize) -> &[u8]
    requires { place < length s.now }
    ensures { result.now ≡ drop (place + 1) s.now }
{
    &s[place + 1..]
}

// Whether a byte other than `/` stands first.
fn passes(name: &[u8]) -> bool
    ensures { result ≡ spec.passes name.now }
{
    !name.is_empty() && name[0] != b'/'
}

// Whether the byte `p` of a pattern, which is no `*`, matches the first byte of a name.
fn fits(p: u8, name: &[u8]) -> bool
    ensures { result ≡ spec.fits p name.now }
{
    if p == b'?' {
        passes(name)
    } else {
        !name.is_empty() && name[0] == p
    }
}

// Lays the pattern on the name up to its first `*`.
fn lay(pattern: &[u8], name: &[u8]) -> Laid
    ensures { IsLaid pattern.now name.now result }
{
    for (count, p) in pattern.iter().enumerate() {
        if *p == b'*' {
            return Laid::Star(count);
        }
        if !fits(*p, after(name, count)) {
            return Laid::Fails;
        }
    }
    if pattern.len() == name.len() {
        Laid::Whole
    } else {
        Laid::Fails
    }
}

// Whether a `*` and then the pattern match the whole name.
//
// What stands up to the next `*` is taken at the first place where it fits: a later place leaves the next `*` no more to
// choose from, since no `*` goes past a `/`. So there is no way back, and a byte of the name is looked at once for each
// byte of the pattern at most.
fn matches_after_star(pattern: &[u8], name: &[u8]) -> bool
    ensures { result ≡ spec.star (spec.matches_whole pattern.now) name.now }
{
    let mut rest = pattern;
    let mut left = name;
    let mut laid = lay(rest, left);
    while !is_whole(laid) {
        if let Laid::Star(count) = laid {
            rest = past(rest, count);
            left = after(left, count);
        } else {
            if !passes(left) {
                return false;
            }
            left = after(left, 1);
        }
        laid = lay(rest, left);
    }
    true
}

// Whether the whole name matches the pattern.
fn matches_whole(pattern: &[u8], name: &[u8]) -> bool
    ensures { result ≡ spec.matches_whole pattern.now name.now }
{
    match lay(pattern, name) {
        Laid::Whole => true,
        Laid::Star(count) => matches_after_star(past(pattern, count), after(name, count)),
        Laid::Fails => false,
    }
}

/// Whether the name matches the pattern, or with `hier` what follows a `/` of it: `*` matches any run of bytes and `?` one
/// byte, none of them `/`, and any other byte itself. It takes no memory, and looks at a byte of the name once for each byte
/// of the pattern at most, with `hier` for each `/` of the name.
#[tactic(auto, using(crate::proofs::Searching::searching))]
pub fn matches(pattern: &[u8], name: &[u8], hier: bool) -> bool
    ensures { result ≡ spec.matches pattern.now name.now hier }
{
    if matches_whole(pattern, name) {
        return true;
    }
    if !hier {
        return false;
    }
    for i in 0..name.len() {
        if name[i] == b'/' && matches_whole(pattern, after(name, i + 1)) {
            return true;
        }
    }
    false
}

/// Whether a pattern has no `*` and no `?`: then one look into a table of names finds all that it matches.
pub fn is_plain(pattern: &[u8]) -> bool
    ensures exact { result ≡ not (list_any is_wild pattern.now) }
    ensures itself { result ≡ true → MatchesItselfAlone pattern.now }
{
    for byte in pattern {
        if *byte == b'*' || *byte == b'?' {
            return false;
        }
    }
    true
}
