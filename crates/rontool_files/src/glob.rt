//! Globs: which names are left out.
ghost use Rattle.std.specs.Prelude.{◌≡◌, IsTrue, ◌↔◌, [], ◌∷◌, Some, chars, MatchOption};
ghost use Rattle.rontool_files.specs.Glob.{Stands, StandsRun, first_piece, star_run, two_star_run, ends, takes};

/// What a piece of a glob stands for.
#[derive(Clone, Copy)]
enum Piece {
    /// This character.
    Itself(char),
    /// One character that is no slash.
    One,
    /// A run of characters.
    Run(Run),
}

/// A run of characters.
#[derive(Clone, Copy)]
enum Run {
    /// Any number of characters, none of which is a slash.
    Name,
    /// Any text.
    Any,
    /// Any folders, each with a slash behind it, or none.
    Folders,
}

impl Run {
    /// Whether it may end behind this character.
    fn ends(self, last: char) -> bool
        ensures { result ≡ ends self last }
    {
        match self {
            Run::Name | Run::Any => true,
            Run::Folders => last == '/',
        }
    }

    /// Whether it may hold this character.
    fn takes(self, character: char) -> bool
        ensures { result ≡ takes self character }
    {
        match self {
            Run::Name => character != '/',
            Run::Any | Run::Folders => true,
        }
    }
}

/// Whether a glob stands for a whole text. `?` stands for one character and `*` for any number of them, none of which is
/// a slash; `**` stands for any text, and `**/` for any folders or none. All else stands for itself.
#[cycle(fits)]
pub fn fits(glob: &str, text: &str) -> bool
    ensures { IsTrue result ↔ Stands (chars glob.now) (chars text.now) }
{
    let Some((piece, rest)) = next_piece(glob) else {
        return is_ended(text);
    };
    match piece {
        Piece::Itself(wanted) => match split_first(text) {
            Some((first, after)) => first == wanted && fits(rest, after),
            None => false,
        },
        Piece::One => match split_first(text) {
            Some((first, after)) => first != '/' && fits(rest, after),
            None => false,
        },
        Piece::Run(run) => fits_run(run, '/', rest, text),
    }
}

/// Whether a run and a glob behind it stand for a text. Before the text stands this character.
#[cycle(fits)]
fn fits_run(run: Run, last: char, glob: &str, text: &str) -> bool
    ensures { IsTrue result ↔ StandsRun run last (chars glob.now) (chars text.now) }
{
    if run.ends(last) && fits(glob, text) {
        return true;
    }
    match split_first(text) {
        Some((first, after)) => run.takes(first) && fits_run(run, first, glob, after),
        None => false,
    }
}

/// The first piece of a glob, and what follows it.
fn next_piece(glob: &str) -> Option<(Piece, &str)>
    ensures { MatchOption result (chars glob.now ≡ []) (λ p. first_piece (chars glob.now) ≡ Some (p.0, chars p.1.now)) }
{
    let (first, rest) = split_first(glob)?;
    if first == '*' {
        let (run, behind) = behind_star(rest);
        return Some((Piece::Run(run), behind));
    }
    if first == '?' {
        return Some((Piece::One, rest));
    }
    Some((Piece::Itself(first), rest))
}

/// The run that a star begins behind which this follows, and what follows the run.
fn behind_star(rest: &str) -> (Run, &str)
    ensures { star_run (chars rest.now) ≡ (result.0, chars result.1.now) }
{
    match split_first(rest) {
        Some((first, behind)) if first == '*' => behind_stars(behind),
        _ => (Run::Name, rest),
    }
}

/// The run that two stars begin behind which this follows, and what follows the run.
fn behind_stars(rest: &str) -> (Run, &str)
    ensures { two_star_run (chars rest.now) ≡ (result.0, chars result.1.now) }
{
    match split_first(rest) {
        Some((first, behind)) if first == '/' => (Run::Folders, behind),
        _ => (Run::Any, rest),
    }
}

/// Whether nothing is left of a text.
fn is_ended(text: &str) -> bool
    ensures { IsTrue result ↔ (chars text.now ≡ []) }
{
    match split_first(text) {
        Some(_) => false,
        None => true,
    }
}

/// The first character of a text, and what follows it.
fn split_first(text: &str) -> Option<(char, &str)>
    ensures { MatchOption result (chars text.now ≡ []) (λ p. chars text.now ≡ p.0 ∷ chars p.1.now) }
{
    let mut characters = text.chars();
    let first = characters.next()?;
    Some((first, characters.as_str()))
}
