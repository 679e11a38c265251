//! Words that pages of rows share. 64 rows whose slots follow each other are a page, of which the last may be shorter. Beside each
//! page stands a word, and which of its rows may have another; and beside each 64 pages, which of them are stirred, so that one
//! comparison tells of all the others.
ghost use Rattle.std.specs.Prelude.{◌≡◌, ◌≢◌, ℕ, ◌/◌, ◌%◌, ◌*◌, ◌<◌, ◌≤◌, IsTrue, [], ◌∷◌, ◌++◌, length, slice_index, slice_set, vec_capacity};
ghost use Rattle.std.specs.Int.{bit_at};
ghost use Rattle.rd_tree.specs.Internal.Glances.{ArePlain, AreShared, HasOdd, HasWord, IsCalmed, IsStirred, is_stirred, known_of, pages};

use rd_keys::{KeyRange, with_bit};

/// The word of a row whose box is not untouched: no generation.
pub(crate) const NOT_QUIET: u64 = 4294967296;

/// How many rows a page has, but for the last.
pub(crate) const PAGE: usize = 64;

/// Of how many pages `all_share` tells at most, where one of them may be stirred.
const MOST: usize = 64;

/// What is known of a page: the word of its rows, but for odd ones, of which nothing is known; a row has a bit, by its place in the
/// page. And of the first of 64 pages, which of these are stirred: each of the others has the word 0 and no odd rows.
#[derive(Clone, Copy)]
pub(crate) struct PageWord {
    pub(crate) word: u64,
    pub(crate) odd: u64,
    pub(crate) stirred: u64,
}

/// Bits without that of a number.
#[inline(always)]
pub(crate) fn without_bit(bits: u64, number: usize) -> u64
    ensures { (i : ℕ) → i < 64 → i ≢ number % 64 → bit_at result i ≡ bit_at bits i }
{
    bits & !(1 << (number % 64))
}

/// The page is stirred.
#[inline(always)]
fn stir(shared: &mut [PageWord], page: usize)
    requires { page < length shared.old }
    ensures { IsStirred shared.old shared.new page }
{
    let first = page / 64 * 64;
    let known = shared[first];
    shared[first] = PageWord {
        word: known.word,
        odd: known.odd,
        stirred: with_bit(known.stirred, page),
    };
}

/// The page is stirred no more.
fn calm_down(shared: &mut [PageWord], page: usize)
    requires { page < length shared.old }
    ensures { IsCalmed shared.old shared.new page }
{
    let first = page / 64 * 64;
    let known = shared[first];
    shared[first] = PageWord {
        word: known.word,
        odd: known.odd,
        stirred: without_bit(known.stirred, page),
    };
}

/// The page has these odd rows.
#[inline(always)]
fn put_odd(shared: &mut [PageWord], page: usize, odd: u64)
    requires { page < length shared.old }
    ensures { HasOdd shared.old shared.new page odd }
{
    let known = shared[page];
    shared[page] = PageWord {
        word: known.word,
        odd,
        stirred: known.stirred,
    };
}

/// The row of a slot gets another word: of the row nothing is known any more.
#[inline(always)]
pub(crate) fn forget(words: &[u64], shared: &mut [PageWord], slot: usize)
    requires slot { slot < length words.now }
    requires shared { AreShared words.now shared.old }
    ensures { (w : ℕ) → AreShared (slice_set words.now slot w) shared.new }
{
    let page = slot / PAGE;
    stir(shared, page);
    let odd = with_bit(shared[page].odd, slot);
    put_odd(shared, page, odd);
}

/// A row comes after these, of a page that there is. Nothing is known of it.
fn extend_page(words: &[u64], shared: &mut [PageWord])
    requires shared { AreShared words.now shared.old }
    requires page { length words.now / PAGE < length shared.old }
    ensures { (w : ℕ) → AreShared (words.now ++ w ∷ []) shared.new }
{
    let slot = words.len();
    let page = slot / PAGE;
    stir(shared, page);
    let odd = with_bit(shared[page].odd, slot);
    put_odd(shared, page, odd);
}

/// A row of a box of this generation comes after these, and begins a page. Nothing is known of it.
fn begin_page(words: &[u64], shared: &mut Vec<PageWord>, generation: u32)
    requires shared { AreShared words.now shared.old.items }
    requires page { length shared.old.items ≤ length words.now / PAGE }
    requires room { pages (length words.now) < vec_capacity shared.old }
    ensures { (w : ℕ) → AreShared (words.now ++ w ∷ []) shared.new.items }
{
    let slot = words.len();
    let page = shared.len();
    shared.push_reserved(PageWord {
        word: u64::from(generation),
        odd: with_bit(0, slot),
        stirred: 0,
    });
    stir(shared, page);
}

/// A row of a box of this generation comes after these. Nothing is known of it.
pub(crate) fn extend(words: &[u64], shared: &mut Vec<PageWord>, generation: u32)
    requires shared { AreShared words.now shared.old.items }
    requires room { pages (length words.now) < vec_capacity shared.old }
    ensures { (w : ℕ) → AreShared (words.now ++ w ∷ []) shared.new.items }
{
    if words.len() / PAGE < shared.len() {
        extend_page(words, shared);
    } else {
        begin_page(words, shared, generation);
    }
}

/// The rows of a page that have another word.
fn odd_in(words: &[u64], page: usize, word: u64) -> u64
    requires { PAGE * page < length words.now }
    ensures { (s : ℕ) → s < length words.now → s / PAGE ≡ page → bit_at result (s % PAGE) ≡ 0 → slice_index words.now s ≡ word }
{
    let start = page * PAGE;
    let end = words.len().min(start + PAGE);
    let mut odd = 0;
    for slot in start..end {
        if words[slot] != word {
            odd = with_bit(odd, slot);
        }
    }
    odd
}

/// Works out anew which rows of a page are odd, which may have some.
fn renew_page(words: &[u64], shared: &mut [PageWord], page: usize, word: u64)
    requires shared { AreShared words.now shared.old }
    requires page { page < length shared.old }
    requires word { (known_of shared.old page).word ≡ word }
    requires odd { (known_of shared.old page).odd ≢ 0 }
    ensures { AreShared words.now shared.new }
{
    let odd = odd_in(words, page, word);
    put_odd(shared, page, odd);
    if odd == 0 && word == 0 {
        calm_down(shared, page);
    }
}

/// Works out anew which rows are odd, of pages that may have some.
pub(crate) fn renew(words: &[u64], shared: &mut [PageWord])
    requires { AreShared words.now shared.old }
    ensures { AreShared words.now shared.new }
{
    for page in 0..shared.len() {
        let known = shared[page];
        if known.odd != 0 {
            renew_page(words, shared, page, known.word);
        }
    }
}

/// Is none of those pages stirred, from one up to another, that too, whose bits are given?
#[inline(always)]
fn none_stirred(shared: &[PageWord], from: usize, to: usize, bits: u64) -> bool
    requires { to < length shared.now }
    ensures { IsTrue result → (b : ℕ) → from ≤ b → b ≤ to → bit_at bits (b % 64) ≡ 1 → is_stirred shared.now b ≡ 0 }
{
    for group in from / 64..to / 64 + 1 {
        if shared[group * 64].stirred & bits != 0 {
            return false;
        }
    }
    true
}

/// Have those rows of a page this word whose bits are given?
#[inline(always)]
fn shares(known: PageWord, slots: u64, word: u64) -> bool
    ensures { IsTrue result → HasWord known slots word }
{
    known.word == word && known.odd & slots == 0
}

/// Have the rows of all keys of a range in a page this word?
#[inline(always)]
fn page_shares(known: PageWord, keys: KeyRange, page: usize, word: u64) -> bool
    ensures { IsTrue result → bit_at keys.pages (page % 64) ≡ 1 → HasWord known keys.slots word }
{
    keys.pages >> (page % 64) & 1 == 0 || shares(known, keys.slots, word)
}

/// Have the rows of all keys of a range this word, page by page? Of more than `MOST` of them the answer is no.
#[inline(never)]
fn each_shares(shared: &[PageWord], keys: KeyRange, word: u64) -> bool
    requires { keys.last_slot / PAGE < length shared.now }
    ensures { IsTrue result → (b : ℕ) → keys.first_slot / PAGE ≤ b → b ≤ keys.last_slot / PAGE → bit_at keys.pages (b % 64) ≡ 1
        → HasWord (known_of shared.now b) keys.slots word }
{
    let from = keys.first_slot as usize / PAGE;
    let to = keys.last_slot as usize / PAGE;
    if to < from || to - from >= MOST {
        return false;
    }
    for page in from..to + 1 {
        if !page_shares(shared[page], keys, page, word) {
            return false;
        }
    }
    true
}

/// Have the rows of all keys of a range this word? Where one of many pages may be stirred, the answer is no.
#[inline(always)]
pub(crate) fn all_share(shared: &[PageWord], keys: KeyRange, word: u64) -> bool
    requires within { keys.last_slot / PAGE < length shared.now }
    requires plain { ArePlain shared.now }
    ensures { IsTrue result → (b : ℕ) → keys.first_slot / PAGE ≤ b → b ≤ keys.last_slot / PAGE → bit_at keys.pages (b % 64) ≡ 1
        → HasWord (known_of shared.now b) keys.slots word }
{
    let from = keys.first_slot as usize / PAGE;
    let to = keys.last_slot as usize / PAGE;
    if word == 0 && none_stirred(shared, from, to, keys.pages) {
        return true;
    }
    each_shares(shared, keys, word)
}
