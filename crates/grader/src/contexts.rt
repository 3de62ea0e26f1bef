// A stack of contexts over a lent slice of grades, for any scale.
ghost use Rattle.std.specs.Prelude.{◌≡◌, ℕ, ◌+◌, ◌<◌, ◌≤◌, List, [], ◌++◌, length, take, drop, slice_index_or};
ghost use Rattle.std.specs.Borrow.{MutBor, Bor};
ghost use Rattle.scales.specs.Rows.{row_plus, row_join, row_times, row_zero};
ghost use Rattle.grading.specs.Grading.{one_of};
ghost use Rattle.grading.specs.Least.{from_0};
ghost use Rattle.grader.specs.Stack.{room};

use scales::rows::{add_into, join_into, scale_into};
use scales::scale::Scale;
use std::marker::Model;

// The contexts of the expressions that are graded and not yet used, one behind the other.
// They lie in a slice that the caller lends, and in no vector: no memory is taken while legs are graded.
#[derive(Drop)]
pub struct Contexts<'a, G> {
    places: &'a mut [G],
    used: usize,
}

// Clauses see the grades on the stack, and those in the places above it. That both together stay as many is said by each
// method: it speaks of before and after, and no type keeps that.
impl<'a, G> Model for Contexts<'a, G> {
    ghost use Rattle.std.specs.Prelude.{◌≤◌, length, take, drop};
    ghost use Rattle.grader.specs.Stack.{Stack};

    ghost Value = { Stack G };

    ghost view = { λ c. record { held = take c.used c.places.now; free = drop c.used c.places.now } };

    ghost invariant = { λ c. c.used ≤ length c.places.now };
}

// Sets every grade to zero. The library's `fill` asks that a clone never fails, which a scale does not say; a call of
// `fill_with` got no proof.
fn clear<G: Scale>(row: &mut [G])
    ensures { row.new ≡ row_zero G.ops (length row.old) }
{
    for grade in row {
        *grade = G::zero();
    }
}

// Merges the grades from `width` on into the first ones.
fn merge_rest<G, F: Fn(&mut [G], &[G])>(grades: &mut [G], width: usize, merge: F)
    requires width { width ≤ length grades.old }
    requires callable { F.IsAlwaysCallable merge }
    ensures { (op : List G → List G → List G) → ((x : MutBor (List G)) (y : Bor (List G)) (r : Unit {0}) (x' : MutBor (List G)) → F.post merge x y r x' → x'.now ≡ op x.now y.now)
        → grades.new ≡ op (take width grades.old) (drop width grades.old) ++ drop width grades.old }
{
    let (row, rest) = grades.split_at_mut(width);
    merge(row, rest);
}

impl<'a, G: Scale> Contexts<'a, G> {
    // An empty stack.
    pub fn new(places: &'a mut [G]) -> Contexts<'a, G>
        ensures held { result.held ≡ [] }
        ensures free { result.free ≡ places.old }
    {
        Contexts { places, used: 0 }
    }

    // The grades on the stack, the topmost context last.
    pub fn held(&self) -> &[G]
        ensures { result.now ≡ self.now.held }
    {
        &self.places[..self.used]
    }

    // A context with no use on top.
    pub fn push_none(&mut self, width: usize)
        requires { length self.old.held + width ≤ room self.old }
        ensures held { self.new.held ≡ self.old.held ++ row_zero G.ops width }
        ensures used { length self.new.held ≡ length self.old.held + width }
        ensures room { room self.new ≡ room self.old }
    {
        let at = self.used;
        self.used += width;
        clear(&mut self.places[at..self.used]);
    }

    // A context with one use of one level on top.
    pub fn push_one(&mut self, width: usize, level: usize)
        requires room { length self.old.held + width ≤ room self.old }
        requires level { level < width }
        ensures held { self.new.held ≡ self.old.held ++ from_0 width (one_of G.ops level) }
        ensures used { length self.new.held ≡ length self.old.held + width }
        ensures room { room self.new ≡ room self.old }
    {
        let at = self.used;
        self.used += width;
        let row = &mut self.places[at..self.used];
        clear(row);
        row[level] = G::one();
    }

    // Takes the topmost context, `top` wide, off and adds it to the one below, `width` wide.
    pub fn add_top(&mut self, width: usize, top: usize)
        requires { width + top ≤ length self.old.held }
        ensures held { (h a b : List G) → length a ≡ width → length b ≡ top → self.old.held ≡ h ++ (a ++ b) → self.new.held ≡ h ++ row_plus G.ops a b }
        ensures used { length self.new.held + top ≡ length self.old.held }
        ensures room { room self.new ≡ room self.old }
    {
        let at = self.used - top - width;
        merge_rest(&mut self.places[at..self.used], width, add_into);
        self.used -= top;
    }

    // Takes the topmost context off and joins it to the one below, which is as wide. What it shares with `add_top`
    // is `merge_rest`: the three lines left would be no shorter as one.
    pub fn join_top(&mut self, width: usize)
        requires { width + width ≤ length self.old.held }
        ensures held { (h a b : List G) → length a ≡ width → length b ≡ width → self.old.held ≡ h ++ (a ++ b) → self.new.held ≡ h ++ row_join G.ops a b }
        ensures used { length self.new.held + width ≡ length self.old.held }
        ensures room { room self.new ≡ room self.old }
    {
        let at = self.used - width - width;
        merge_rest(&mut self.places[at..self.used], width, join_into);
        self.used -= width;
    }

    // Scales the context below the topmost one.
    pub fn scale_below(&mut self, by: G, width: usize, top: usize)
        requires { width + top ≤ length self.old.held }
        ensures held { (h a b : List G) → length a ≡ width → length b ≡ top → self.old.held ≡ h ++ (a ++ b) → self.new.held ≡ h ++ (row_times G.ops by a ++ b) }
        ensures used { length self.new.held ≡ length self.old.held }
        ensures room { room self.new ≡ room self.old }
    {
        let at = self.used - top;
        scale_into(by, &mut self.places[at - width..at]);
    }

    // The grade of a level in the topmost context.
    pub fn grade(&self, top: usize, level: usize) -> G
        requires there { top ≤ length self.now.held }
        requires level { level < top }
        ensures { (h b : List G) (d : G) → length b ≡ top → self.now.held ≡ h ++ b → result ≡ slice_index_or b level d }
    {
        self.places[self.used - top + level]
    }
}
