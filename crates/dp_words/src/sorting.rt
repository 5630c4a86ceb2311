//! The words after a command, sorted into options and places.
ghost use Rattle.std.specs.Prelude.{◌≡◌, List, [], ◌∷◌, ◌++◌, map, take, string_bytes};
ghost use Rattle.dp_words.specs.Words.{Placed as PlacedWord, is_dash, is_dashes, is_option};
ghost use Rattle.dp_words.specs.Words.{placed, options, places};
ghost use Rattle.dp_words.specs.Sorting.{HasSorted, pair};

use arrayvec::ArrayVec;

/// The options that are kept of the words: one more than any command has.
const KEPT_OPTIONS: usize = 2;

/// The places that are kept of the words: one more than any command has.
const KEPT_PLACES: usize = 5;

/// A word with its place among all the words.
#[derive(Clone, Copy, Default)]
pub(crate) struct Placed<'a> {
    pub(crate) place: usize,
    pub(crate) word: &'a str,
}

impl Placed<'_> {
    pub(crate) fn is_dash(&self) -> bool
        ensures { result ≡ is_dash (pair self.now) }
    {
        self.word == "-"
    }

    fn is_dashes(&self) -> bool
        ensures { result ≡ is_dashes (pair self.now) }
    {
        self.word == "--"
    }

    /// It starts with `-` and is longer than that.
    fn is_option(&self) -> bool
        ensures { result ≡ is_option (pair self.now) }
    {
        self.word.len() > 1 && self.word.as_bytes()[0] == b'-'
    }
}

/// The words after a command so far, sorted: the first of the options, and the first of the places.
#[derive(Drop)]
pub(crate) struct Sorted<'a> {
    had_dashes: bool,
    pub(crate) options: ArrayVec<Placed<'a>, KEPT_OPTIONS>,
    pub(crate) places: ArrayVec<Placed<'a>, KEPT_PLACES>,
}

impl<'a> Sorted<'a> {
    fn new() -> Sorted<'a>
        ensures { HasSorted result [] }
    {
        Sorted {
            had_dashes: false,
            options: ArrayVec::new(),
            places: ArrayVec::new(),
        }
    }

    /// Sorts the next word. An option or a place that isn't kept is dropped.
    fn sort(&mut self, word: Placed<'a>)
        ensures { (words : List PlacedWord) → HasSorted self.old words
            → HasSorted self.new (words ++ pair word.entry ∷ []) }
    {
        if self.had_dashes {
            let _ = self.places.try_push(word);
        } else if word.is_dashes() {
            self.had_dashes = true;
        } else if word.is_option() {
            let _ = self.options.try_push(word);
        } else {
            let _ = self.places.try_push(word);
        }
    }
}

/// The words after a command, sorted from left to right: the first `--` is dropped, and every word after it is a
/// place. Before it, a word that looks like an option is one; every other word is a place.
pub(crate) fn sort_words(words: &[String]) -> Sorted<'_>
    ensures options { map pair result.options.items
        ≡ take KEPT_OPTIONS (options (placed (map string_bytes words.now))) }
    ensures places { map pair result.places.items
        ≡ take KEPT_PLACES (places (placed (map string_bytes words.now))) }
{
    let mut sorted = Sorted::new();
    for (index, word) in words.iter().enumerate() {
        sorted.sort(Placed {
            place: index + 1,
            word: word.as_str(),
        });
    }
    sorted
}
