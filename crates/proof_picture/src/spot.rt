//! How far the words of a node have come, and what stands before the next.
ghost use Rattle.std.specs.Prelude.{◌≡◌};
ghost use Rattle.proof_picture.specs.Layout.{after_word as spot_after, begins_line as starts_line, first_flag};
ghost use Rattle.proof_picture.specs.Layout.{flags_behind, gap_before, is_prime as is_joined, other_flags, signs_with};
ghost use Rattle.proof_picture.specs.Layout.{stands_out as is_bold, start};
ghost use Rattle.proof_picture.specs.Places.{place_of};

/// What stands before a word: nothing that is not between words of a piece, nothing where another piece begins, a space
/// where one does, or the end of the line.
#[derive(Clone, Copy)]
pub enum Gap {
    Within,
    Joined,
    Space,
    Line,
}

/// How far the words have come: whether the spatial atoms of the antecedent have begun; for the atom that is next or
/// has begun, and for each after it, whether it stands out; how many bytes the words of the line have, counted up to a
/// hundred or so; and whether the last word is a comma.
#[derive(Drop)]
pub struct Spot<'a> {
    inside: bool,
    flags: &'a [bool],
    signs: usize,
    comma: bool,
}

fn begins_line(text: &str) -> bool
    ensures { result ≡ starts_line text.now }
{
    text == "|-" || text == "or" || text == "by"
}

/// A prime belongs to the name before it, as in a problem.
fn is_prime(text: &str) -> bool
    ensures { result ≡ is_joined text.now }
{
    text == "'"
}

fn first(flags: &[bool]) -> bool
    ensures { result ≡ first_flag flags.now }
{
    match flags {
        [] => false,
        [flag, ..] => *flag,
    }
}

fn others(flags: &[bool]) -> &[bool]
    ensures { result.now ≡ other_flags flags.now }
{
    match flags {
        [] => flags,
        [_, others @ ..] => others,
    }
}

fn with_signs(signs: usize, text: &str) -> usize
    ensures { result ≡ signs_with signs text.now }
{
    if signs < 100 {
        signs + text.len()
    } else {
        signs
    }
}

impl<'a> Spot<'a> {
    /// Before the first word.
    pub fn start(flags: &'a [bool]) -> Spot<'a>
        ensures { place_of result ≡ start flags.now }
    {
        Spot {
            inside: false,
            flags,
            signs: 0,
            comma: false,
        }
    }

    /// Whether a word stands out that comes next.
    pub fn stands_out(&self, text: &str) -> bool
        ensures { result ≡ is_bold (place_of self.now) text.now }
    {
        self.inside && !(text == "*" || begins_line(text)) && first(self.flags)
    }

    /// What stands before a word that comes next, where the words before it stand out or not.
    pub fn gap(&self, bold: bool, text: &str) -> Gap
        ensures { result ≡ gap_before (place_of self.now) bold text.now }
    {
        if begins_line(text)
            || (self.signs > 34 && text == "*")
            || (self.signs > 52 && self.comma)
        {
            return Gap::Line;
        }
        if is_prime(text) {
            return Gap::Joined;
        }
        if self.stands_out(text) == bold {
            Gap::Within
        } else {
            Gap::Space
        }
    }

    fn flags_behind(&self, text: &str) -> &'a [bool]
        ensures { result.now ≡ flags_behind (place_of self.now) text.now }
    {
        if begins_line(text) {
            &[]
        } else if self.inside && text == "*" {
            others(self.flags)
        } else {
            self.flags
        }
    }

    /// Behind a word.
    pub fn after(&self, gap: Gap, text: &str) -> Spot<'a>
        ensures { place_of result ≡ spot_after (place_of self.now) gap text.now }
    {
        let signs = match gap {
            Gap::Line => 0,
            _ => self.signs,
        };
        Spot {
            inside: self.inside || text == ":",
            flags: self.flags_behind(text),
            signs: with_signs(signs, text),
            comma: text == ",",
        }
    }
}
