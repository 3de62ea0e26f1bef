// The walk over a plan's nodes: legs in order, kids in order, a node after its kids.
ghost use Rattle.std.specs.Prelude.{◌≡◌, ℕ, ◌+◌, ◌*◌, ◌<◌, ◌≤◌, [], ◌++◌, length};
ghost use Rattle.plan.specs.Table.{term_at, node_size, Spells};
ghost use Rattle.plan.specs.Plans.{leg_in, legs_in};
ghost use Rattle.grading.specs.Grading.{turned};
ghost use Rattle.grading.specs.Least.{need, inner, from_0, leg_grades, legs_grades, legs_binders};
ghost use Rattle.grader.specs.Stack.{room};
ghost use Rattle.grader.specs.Walk.{Fit, Known, ParamsIn, LegReady, LegsReady, lower_needs, put};

use crate::contexts::Contexts;
use crate::rules::{close, kid_width};
use plan::kinds::{binders_of, kids_of};
use plan::{Leg, Row};
use scales::scale::Scale;

// What a walk has written: the contexts that are not yet used, and the grades of the binders before `next`.
#[derive(Drop)]
struct Progress<'a, S> {
    contexts: Contexts<'a, S>,
    answers: &'a mut [S],
    next: usize,
}

// What a walk reads: the nodes, and the legs below the one that is graded. That the nodes spell trees is asked of each
// method: as a ghost field it would have to be held under a truncation, since an equation of trees is not seen to be a
// proposition, and be taken out again in each.
#[derive(Clone, Copy)]
struct Walk<'a> {
    lower: &'a [Leg],
    nodes: &'a [Row],
}

impl<'a> Walk<'a> {
    // Puts the context of the expression at a node on top of the stack, and the grades of its binders among the answers, which have those of the lower legs'
    // parameters already.
    fn grade<S: Scale>(&self, at: usize, width: usize, progress: &mut Progress<S>)
        requires spells { Spells self.now.nodes.now }
        requires within { at < length self.now.nodes.now }
        requires fit { Fit self.now.lower.now width (term_at self.now.nodes.now at) }
        requires params { ParamsIn self.now.lower.now progress.old.next }
        requires known { Known S.ops (lower_needs S.ops self.now.nodes.now self.now.lower.now) self.now.lower.now progress.old.answers.now }
        requires binders { progress.old.next + length (inner S.ops (lower_needs S.ops self.now.nodes.now self.now.lower.now) (term_at self.now.nodes.now at) width) ≤ length progress.old.answers.now }
        requires room { length progress.old.contexts.held + 16 * node_size (term_at self.now.nodes.now at) ≤ room progress.old.contexts }
        ensures held { progress.new.contexts.held ≡ progress.old.contexts.held ++ from_0 width (need S.ops (lower_needs S.ops self.now.nodes.now self.now.lower.now) (term_at self.now.nodes.now at) width) }
        ensures room { room progress.new.contexts ≡ room progress.old.contexts }
        ensures same { progress.new.answers.ghost_name ≡ progress.old.answers.ghost_name }
        ensures answers { progress.new.answers.now ≡ put progress.old.next (inner S.ops (lower_needs S.ops self.now.nodes.now self.now.lower.now) (term_at self.now.nodes.now at) width) progress.old.answers.now }
        ensures next { progress.new.next ≡ progress.old.next + length (inner S.ops (lower_needs S.ops self.now.nodes.now self.now.lower.now) (term_at self.now.nodes.now at) width) }
    {
        let node = self.nodes[at].node;
        let own = progress.next;
        progress.next += binders_of(node) as usize;
        let mut place = at + 1;
        for k in 0..kids_of(node) {
            self.grade(place, kid_width(node, width, k), progress);
            place = self.nodes[place].end as usize;
        }
        close(
            self.lower,
            node,
            width,
            own,
            &mut progress.contexts,
            progress.answers,
        );
    }

    // Puts the grades of a leg's binders among the answers, where those of the legs below it stand already.
    fn grade_leg<S: Scale>(&self, leg: &Leg, work: &mut [S], answers: &mut [S])
        requires spells { Spells self.now.nodes.now }
        requires ready { LegReady self.now.nodes.now self.now.lower.now leg.now }
        requires params { ParamsIn self.now.lower.now leg.now.binder.index }
        requires known { Known S.ops (lower_needs S.ops self.now.nodes.now self.now.lower.now) self.now.lower.now answers.old }
        requires binders { leg.now.binder.index + length (leg_grades S.ops (lower_needs S.ops self.now.nodes.now self.now.lower.now) (leg_in self.now.nodes.now leg.now)) ≤ length answers.old }
        requires room { 4096 ≤ length work.old }
        ensures { answers.new ≡ put leg.now.binder.index (leg_grades S.ops (lower_needs S.ops self.now.nodes.now self.now.lower.now) (leg_in self.now.nodes.now leg.now)) answers.old }
    {
        let count = leg.params.len();
        let first = leg.binder.index as usize;
        let mut progress = Progress {
            contexts: Contexts::new(work),
            answers,
            next: first + count,
        };
        self.grade(leg.first as usize, count, &mut progress);
        let Progress {
            contexts,
            answers,
            ..
        } = progress;
        answers[first..first + count].copy_from_slice(contexts.held());
    }
}

// Puts the grades of all binders among the answers, leg by leg.
pub fn grade_legs<S: Scale>(legs: &[Leg], nodes: &[Row], work: &mut [S], answers: &mut [S])
    requires spells { Spells nodes.now }
    requires ready { LegsReady nodes.now legs.now }
    requires binders { legs_binders (turned [] (legs_in nodes.now legs.now)) ≤ length answers.old }
    requires room { 4096 ≤ length work.old }
    ensures { answers.new ≡ put 0 (legs_grades S.ops (turned [] (legs_in nodes.now legs.now))) answers.old }
{
    for (k, leg) in legs.iter().enumerate() {
        let walk = Walk {
            lower: &legs[..k],
            nodes,
        };
        walk.grade_leg(leg, work, answers);
    }
}
