//! What was found of paths' next few steps.
ghost use Rattle.std.specs.Prelude.{◌≡◌, ◌+◌, ◌*◌, ◌<◌, ◌≤◌, ℕ, suc, length, slice_index, slice_index_or, IfOk, IfSome, IsTrue};
ghost use Rattle.pt_core.specs.declared.point.Point.{Point};
ghost use Rattle.path_cones.specs.Inner.Codes.{IsCoded, beyond, coded_step};
ghost use Rattle.path_cones.specs.Inner.Cones.{HoldsWay};
ghost use Rattle.path_cones.specs.Corners.{step_from};
ghost use Rattle.straight_paths.specs.Inner.Courses.{cone_of, wide_of};
ghost use Rattle.path_cones.specs.Straight.{IsStraight};
ghost use Rattle.straight_paths.specs.Inner.Tables.{GrowsInto, HasWordAt, IsCourseOf, IsWordOf, IsWordTable, LeadsFront, LeadsToWord, StandsFor, count_at, course_at, digits_at};

use crate::course::Course;
use crate::word::{LONGEST, Word};
use pt_core::NoMemory;
use std::alloc::Global;

/// How many words are kept at most. Each takes 48 bytes, so all of them 3 MiB.
const MOST_WORDS: usize = 65536;

/// A table of the words that were met: what comes of each by a step in front, which is the word of those steps that are
/// straight then.
#[derive(Drop)]
pub(crate) struct Table {
    /// How many words are kept. The first one has no steps.
    pub used: usize,
    /// The digits of each word.
    pub digits: Vec<u64>,
    /// The number of steps of each word.
    pub counts: Vec<u32>,
    /// For each word, and for each step in front of it, the number of the word that comes of it, or 0 where that
    /// wasn't met.
    pub nexts: Vec<u32>,
    /// What the steps of each word come to.
    pub courses: Vec<Course>,
}

impl Table {
    /// It keeps nothing.
    pub(crate) fn none(alloc: Global) -> Table
        ensures table { IsWordTable result }
    {
        Table {
            used: 0,
            digits: Vec::new(alloc),
            counts: Vec::new(alloc),
            nexts: Vec::new(alloc),
            courses: Vec::new(alloc),
        }
    }

    /// It keeps the word of no steps.
    pub(crate) fn new(alloc: Global) -> Result<Table, NoMemory>
        ensures table { IfOk result IsWordTable }
    {
        let mut courses = Vec::new(alloc);
        courses.push(Course::none())?;
        Ok(Table {
            used: 1,
            digits: vec![in alloc; 0; 1]?,
            counts: vec![in alloc; 0; 1]?,
            nexts: vec![in alloc; 0; 4]?,
            courses,
        })
    }

    /// What a step in front of a word leads to, if that was met; else 0.
    pub(crate) fn told(&self, node: u32, digit: u32) -> u32
        requires word { IsWordOf self.now node }
        requires digit { digit < 4 }
        ensures value { result ≡ slice_index self.now.nexts.items (4 * node + digit) }
    {
        self.nexts[4 * node as usize + digit as usize]
    }

    /// The number of steps of a word.
    pub(crate) fn count(&self, node: u32) -> u32
        requires word { IsWordOf self.now node }
        ensures value { result ≡ count_at self.now node }
    {
        self.counts[node as usize]
    }

    /// A word.
    fn word(&self, node: u32) -> Word
        requires word { IsWordOf self.now node }
        ensures count { result.count ≡ count_at self.now node }
        ensures digits { result.digits ≡ digits_at self.now node }
    {
        Word {
            digits: self.digits[node as usize],
            count: self.counts[node as usize],
        }
    }

    /// What the steps of a word come to.
    fn course(&self, node: u32) -> Course
        requires word { IsWordOf self.now node }
        ensures { result ≡ course_at self.now node }
    {
        self.courses[node as usize]
    }

    /// What a step in front of a word leads to, if that is found.
    //
    // 1. It is found for the word without its last step.
    // 2. Where less is straight there, the last step changes nothing. Else its end alone is asked.
    pub(crate) fn next(&mut self, node: u32, digit: u32) -> Option<u32>
        requires word { IsWordOf self.old node }
        requires digit { digit < 4 }
        ensures grows { GrowsInto self.old self.new }
        ensures leads { IfSome result (LeadsToWord self.new node digit) }
    {
        let known = self.told(node, digit);
        if known != 0 {
            return Some(known);
        }
        if self.count(node) == 0 {
            return self.by_front(node, digit, node, digit);
        }
        let course = self.course(node);
        match self.next(course.front, digit) {
            Some(next) => self.by_front(node, digit, next, course.last),
            None => None,
        }
    }

    /// What a step in front of a word leads to, by the word `next` to which it leads in front of that without its last step.
    fn by_front(&mut self, node: u32, digit: u32, next: u32, last: u32) -> Option<u32>
        requires word { IsWordOf self.old node }
        requires digit { digit < 4 }
        requires front { LeadsFront self.old node digit next last }
        ensures grows { GrowsInto self.old self.new }
        ensures leads { IfSome result (LeadsToWord self.new node digit) }
    {
        if self.count(next) != self.count(node) {
            self.tell(node, digit, next);
            return Some(next);
        }
        if !self.course(next).goes_on(last) {
            self.tell(node, digit, next);
            return Some(next);
        }
        self.longer(node, digit, next, last)
    }

    /// What a step in front of a word leads to where all of it is straight: the word is added, if there is room.
    fn longer(&mut self, node: u32, digit: u32, next: u32, last: u32) -> Option<u32>
        requires word { IsWordOf self.old node }
        requires digit { digit < 4 }
        requires front { LeadsFront self.old node digit next last }
        requires same { count_at self.old next ≡ count_at self.old node }
        requires held { HoldsWay (cone_of (course_at self.old next).cone)
            (beyond (wide_of (course_at self.old next).way) last) }
        requires straight { (path : ℕ → Point) → step_from path 0 ≡ coded_step digit
            → IsCoded (count_at self.old node) (λ k. path (suc k)) (digits_at self.old node)
            → IsStraight (λ k. path (suc k)) (count_at self.old node) → IsStraight path (suc (count_at self.old node)) }
        ensures grows { GrowsInto self.old self.new }
        ensures leads { IfSome result (LeadsToWord self.new node digit) }
    {
        let word = self.word(node).with(digit);
        if word.count > LONGEST {
            return None;
        }
        let Some(course) = self.course(next).with(next, last) else {
            return None;
        };
        match self.add(word, course) {
            Some(added) => {
                self.tell(node, digit, added);
                Some(added)
            }
            None => None,
        }
    }

    /// The word with these digits, if it is found.
    //
    // Without its first step it is one word, and a step in front of that leads to it.
    pub(crate) fn spelled(&mut self, digits: u64, count: u32) -> Option<u32>
        requires root { IsWordOf self.old 0 }
        ensures grows { GrowsInto self.old self.new }
        ensures spelled { IfSome result (λ node. StandsFor self.new node count digits) }
    {
        if count == 0 {
            return Some(0);
        }
        match self.spelled(digits / 4, count - 1) {
            Some(rest) => self.next(rest, (digits % 4) as u32),
            None => None,
        }
    }

    /// Adds a word, if there is room.
    fn add(&mut self, word: Word, course: Course) -> Option<u32>
        requires root { IsWordOf self.old 0 }
        requires short { word.count ≤ 19 }
        requires course { IsCourseOf self.old word course }
        ensures grows { GrowsInto self.old self.new }
        ensures added { IfSome result (HasWordAt self.new word) }
    {
        let at = self.used;
        if at >= MOST_WORDS {
            return None;
        }
        if !put(&mut self.digits, at, word.digits) {
            return None;
        }
        if !put(&mut self.counts, at, word.count) {
            return None;
        }
        if !put_four(&mut self.nexts, 4 * at) {
            return None;
        }
        if !put(&mut self.courses, at, course) {
            return None;
        }
        self.used = at + 1;
        Some(at as u32)
    }

    /// Writes down what a step in front of a word leads to.
    fn tell(&mut self, node: u32, digit: u32, next: u32)
        requires word { IsWordOf self.old node }
        requires digit { digit < 4 }
        requires leads { LeadsToWord self.old node digit next }
        ensures grows { GrowsInto self.old self.new }
        ensures leads { LeadsToWord self.new node digit next }
    {
        self.nexts[4 * node as usize + digit as usize] = next;
    }
}

/// Puts an item at a place of a list, or at its end, if there is room.
fn put<T: Copy>(list: &mut Vec<T>, at: usize, item: T) -> bool
    requires { at ≤ length list.old.items }
    ensures before { (k : ℕ) (other : T) → k < at → slice_index_or list.new.items k other ≡ slice_index_or list.old.items k other }
    ensures length { length list.old.items ≤ length list.new.items }
    ensures there { IsTrue result → at < length list.new.items }
    ensures put { IsTrue result → (other : T) → slice_index_or list.new.items at other ≡ item }
{
    if at < list.len() {
        list[at] = item;
        return true;
    }
    list.push(item).is_ok()
}

/// Puts four times 0.
fn put_four(list: &mut Vec<u32>, at: usize) -> bool
    requires at { at ≤ length list.old.items }
    requires few { at ≤ 262144 }
    ensures before { (k : ℕ) → k < at → slice_index list.new.items k ≡ slice_index list.old.items k }
    ensures length { length list.old.items ≤ length list.new.items }
    ensures there { IsTrue result → at + 4 ≤ length list.new.items }
    ensures put { IsTrue result → (k : ℕ) → at ≤ k → k < at + 4 → slice_index list.new.items k ≡ 0 }
{
    for place in at..at + 4 {
        if !put(list, place, 0) {
            return false;
        }
    }
    true
}
