//! Lists of attributes without a fault, told by one pass over them.
ghost use Rattle.std.specs.Prelude.{◌≡◌, ◌&&◌, ◌||◌, ◌<◌, ◌≤◌, ℕ, not, length, map, find, true, bytes_eq, is_some, Some, None, IfSome};
ghost use Rattle.sexpr.specs.Items.{no_items};
ghost use Rattle.text_items.specs.ItemsAt.{item_at, items_at};
ghost use Rattle.text_items.specs.Keywords as shape;
ghost use Rattle.text_items.specs.OnePass.{IsKeywordMarked, IsPassed, lacks_still};

use crate::keywords::{Keyword, Next, is_spelled_so, is_value, keyword_at, next_fault};
use crate::nodes::ItemText;

/// Of how many known keywords it is kept whether they stood. Where more are known the pass tells nothing.
const MOST: usize = 8;

/// Whether one pass shows that the attributes that stand from `first` to before `end` have no fault. Where it is false they
/// mostly have one.
pub(crate) fn is_faultless(
    items: &ItemText<'_, '_>,
    known: &[Keyword<'_>],
    first: usize,
    end: usize,
) -> bool
    requires { end ≤ length items.now.nodes }
    ensures { result ≡ true → (place : ℕ) → None ≡ shape.attributes_fault (map shape.known_of known.now) place (items_at items.now first end) }
{
    let mut stood = [false; MOST];
    let mut k = first;
    let mut next = Next::Word;
    'items: while k < end {
        if next_fault(items, next, k).is_some() {
            return false;
        }
        let Some(after) = pass(items, known, k, &mut stood) else {
            return false;
        };
        next = after;
        k = items.node(k).next;
    }
    !is_value(next) && !lacks(known, &stood)
}

/// Passes the item at a node: what may stand behind it, and None where it is a keyword that may not stand again.
fn pass(
    items: &ItemText<'_, '_>,
    known: &[Keyword<'_>],
    k: usize,
    stood: &mut [bool],
) -> Option<Next>
    requires { k < length items.now.nodes }
    ensures { IfSome result (λ next. IsPassed (map shape.known_of known.now) (shape.keyword_of (item_at items.now k)) stood.old next stood.new) }
{
    match keyword_at(items, k) {
        None => Some(Next::Word),
        Some(word) => pass_word(known, word, stood),
    }
}

/// Marks a keyword as one that stood: what may stand behind it, and None where it stands once at most and stood before. Nothing
/// is said of the marks then.
fn pass_word(known: &[Keyword<'_>], word: &[u8], stood: &mut [bool]) -> Option<Next>
    ensures next { IfSome result (λ next. next ≡ shape.after_known (find (λ k. bytes_eq k.spelling word.now) (map shape.known_of known.now))) }
    ensures marked { IfSome result (λ _. IsKeywordMarked (map shape.known_of known.now) word.now stood.old stood.new) }
{
    match known {
        [] => Some(Next::Anything),
        [keyword, others @ ..] => match stood.split_first_mut() {
            None => None,
            Some((first, rest)) => match mark_one(keyword, word, first) {
                None => None,
                Some(false) => pass_word(others, word, rest),
                Some(true) => {
                    if mark(others, word, rest) {
                        Some(Next::Value(keyword.wants))
                    } else {
                        None
                    }
                }
            },
        },
    }
}

/// Marks a keyword as one that stood. False where one that stands once at most stood before; nothing is said of the marks
/// then.
fn mark(known: &[Keyword<'_>], word: &[u8], stood: &mut [bool]) -> bool
    ensures { result ≡ true → IsKeywordMarked (map shape.known_of known.now) word.now stood.old stood.new }
{
    match known {
        [] => true,
        [keyword, others @ ..] => match stood.split_first_mut() {
            None => false,
            Some((first, rest)) => {
                mark_one(keyword, word, first).is_some() && mark(others, word, rest)
            }
        },
    }
}

/// Whether a known keyword is this one, which it marks as one that stood then. None where it stands once at most and stood
/// before.
fn mark_one(keyword: &Keyword<'_>, word: &[u8], stood: &mut bool) -> Option<bool>
    ensures kept { stood.new ≡ stood.old || bytes_eq keyword.now.spelling.now word.now }
    ensures spelled { IfSome result (λ is. is ≡ bytes_eq keyword.now.spelling.now word.now) }
    ensures once { is_some result ≡ not (keyword.now.once && stood.old && bytes_eq keyword.now.spelling.now word.now) }
{
    if !is_spelled_so(keyword, word) {
        return Some(false);
    }
    let again = keyword.once && *stood;
    *stood = true;
    if again { None } else { Some(true) }
}

/// Whether a keyword that is needed did not stand.
fn lacks(known: &[Keyword<'_>], stood: &[bool]) -> bool
    ensures { result ≡ lacks_still (map shape.known_of known.now) stood.now no_items }
{
    match known {
        [] => false,
        [keyword, others @ ..] => {
            let (here, rest) = match stood {
                [] => (false, stood),
                [first, rest @ ..] => (*first, rest),
            };
            if keyword.needed && !here {
                return true;
            }
            lacks(others, rest)
        }
    }
}
