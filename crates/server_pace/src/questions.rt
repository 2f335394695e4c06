//! Questions that were heard, and who is told what.

ghost use Rattle.std.specs.Prelude.{◌≡◌, ◌↔◌, ◌-◌, Some, None, IfSome, IfNone};
ghost use Rattle.std.specs.Prelude.{IsTrue, replicate};
ghost use Rattle.node.specs.Nodes.{Node as AbstractNode};
ghost use Rattle.node.specs.Standing.{IsNodeOf};
ghost use Rattle.site_ids.specs.Ids.{IsNode};
ghost use Rattle.site_ids.specs.NodeSets.{AreUnited};
ghost use Rattle.server_pace.specs.Courses.{course_after};
ghost use Rattle.server_pace.specs.Places.{number_behind};
ghost use Rattle.server_pace.specs.Questioning.{newer, no_questions, told_count, told_so, AreAsked};
ghost use Rattle.server_pace.specs.Questioning.{AreOnCourse, IsDueTo, IsFirstDue, IsFull, IsNextTo};
ghost use Rattle.server_pace.specs.Questioning.{may_have_votes};
ghost use Rattle.server_pace.specs.Questioning.{NobodyIsDue, StandsSo, TakesIn, TellsNext};

use crate::asking::Telling;
use crate::course::Course;
use crate::places::number_behind;
use crate::present::Present;
use node::{MAX_TOLD, Node};
use server_times::Times;
use site_disk::Disk;
use site_drive::Delivered;
use site_ids::{Cluster, Instance, NodeId};

/// What each node asked for and how far it was told, node p at index p - 1; and who was told last.
#[derive(Clone, Copy, Drop)]
pub struct Questions {
    asked: [Option<Instance>; 9],
    courses: [Option<Course>; 9],
    present: Present,
    last: NodeId,
}

/// Who tells, with what it sees of itself as a batch begins.
#[derive(Clone, Copy, Drop)]
pub(crate) struct Teller {
    pub times: Times,
    /// The moment.
    pub at: u64,
    pub me: NodeId,
    /// How many values are known.
    pub known: u32,
    /// The furthest instance that messages were about, or at which its record had a vote as it began.
    pub furthest: u32,
    /// Nobody was seen to try a value since it asked last.
    pub calm: bool,
}

/// What is told next: to whom, on which course, the first instance, and how many instances.
#[derive(Clone, Copy, Drop)]
struct Next {
    to: NodeId,
    course: Course,
    first: Instance,
    count: u32,
}

/// Whether there is something to tell about the last instance of a telling.
fn is_full<D: Disk>(node: &Node<D>, first: Instance) -> bool
    ensures { (s : AbstractNode) → IsNodeOf node.now s → IsTrue result ↔ IsFull s first }
{
    match first.plus(MAX_TOLD - 1) {
        Some(last) => node.is_tellable(last),
        None => false,
    }
}

/// How many of `count` instances, from `first` on, a telling covers if `known` values are known.
fn told_count(known: u32, first: u32, count: u32) -> u32
    ensures { result ≡ told_count known first count }
{
    if first <= known {
        count.min((known - first).saturating_add(1))
    } else {
        count
    }
}

fn newer(heard: Option<Instance>, before: Option<Instance>) -> Option<Instance>
    ensures { result ≡ newer heard before }
{
    match heard {
        Some(instance) => Some(instance),
        None => before,
    }
}

fn none_asked() -> [Option<Instance>; 9]
    ensures { result ≡ replicate 9 None }
{
    [None; 9]
}

/// Each node's newest question, after these were heard.
fn newer_each(asked: &[Option<Instance>; 9], heard: &[Option<Instance>; 9]) -> [Option<Instance>; 9]
    ensures { AreAsked asked.now heard.now result }
{
    let mut all = [None; 9];
    for i in 0..9 {
        all[i] = newer(heard[i], asked[i]);
    }
    all
}

/// How far a node is told after it asked for `asked`, if it did.
fn course_after(
    times: Times,
    now: u64,
    asked: Option<Instance>,
    course: Option<Course>,
) -> Option<Course>
    ensures { result ≡ course_after times now asked course }
{
    let Some(instance) = asked else {
        return course;
    };
    match course {
        Some(course) => Some(course.heard(times, now, instance)),
        None => Some(Course::new(times, now, instance)),
    }
}

/// How far each node is told.
fn courses_after(
    times: Times,
    now: u64,
    asked: &[Option<Instance>; 9],
    courses: &[Option<Course>; 9],
) -> [Option<Course>; 9]
    ensures { AreOnCourse times now asked.now courses.now result }
{
    let mut all = [None; 9];
    for i in 0..9 {
        all[i] = course_after(times, now, asked[i], courses[i]);
    }
    all
}

/// Whether there may be votes to tell about a course's next instance: its node asked for it or for a later
/// one, and the furthest instance of which anything was heard is no earlier.
fn may_have_votes(course: Course, furthest: u32) -> bool
    ensures { result ≡ may_have_votes course furthest }
{
    course.next <= course.first && course.next <= furthest
}

impl Questions {
    /// No question was heard, at this node.
    pub(crate) fn new(me: NodeId) -> Questions
        ensures { result ≡ no_questions me }
    {
        Questions {
            asked: [None; 9],
            courses: [None; 9],
            present: Present::new(),
            last: me,
        }
    }

    /// Takes in the questions that were delivered, each in the place of that node's last one, and who sent
    /// anything.
    pub(crate) fn hear(&mut self, delivered: &Delivered)
        ensures asked { AreAsked self.old.asked delivered.now.questions self.new.asked }
        ensures came { AreUnited delivered.now.heard self.old.present.came self.new.present.came }
        ensures same { self.new ≡ record self.old {
          asked = self.new.asked;
          present = record self.old.present { came = self.new.present.came };
        } }
    {
        self.asked = newer_each(&self.asked, delivered.questions());
        self.present.hear(delivered.heard());
    }

    /// Each question that waits changes how far its node is told.
    fn take_in(&mut self, times: Times, now: u64)
        ensures { TakesIn self.old times now self.new }
    {
        self.courses = courses_after(times, now, &self.asked, &self.courses);
        self.asked = none_asked();
        self.present.note(now);
    }

    /// What decides whether a node that asked is told something, on that course, from its next instance on.
    fn telling_on<D: Disk>(
        &self,
        teller: &Teller,
        node: &Node<D>,
        to: NodeId,
        course: Course,
        first: Instance,
    ) -> Telling
        requires { first ≡ course.next }
        ensures { (s : AbstractNode) → IsNodeOf node.now s → StandsSo self.now teller.now s to course result }
    {
        Telling {
            full: is_full(node, first),
            asked: course.asked,
            known: node.remembers(first),
            votes: may_have_votes(course, teller.furthest),
            calm: teller.calm,
            turn: self
                .present
                .has_turn(teller.times, teller.at, to, teller.me, course.repeats),
        }
    }

    /// The next telling to a node, if that is due.
    fn next_to<D: Disk>(&self, teller: &Teller, node: &Node<D>, to: NodeId) -> Option<Next>
        requires { IsNode node.now.cluster to }
        ensures some { IfSome result (λ next. (s : AbstractNode) → IsNodeOf node.now s
            → IsNextTo self.now teller.now node.now.cluster s to next) }
        ensures none { IfNone result ((s : AbstractNode) → IsNodeOf node.now s → (c : Course)
            → ¬ IsDueTo self.now teller.now s to c) }
    {
        let course = self.courses[usize::from(to.number()) - 1]?;
        let first = Instance::new(course.next)?;
        if !self.telling_on(teller, node, to, course, first).is_due() {
            return None;
        }
        let count = node.covers(first);
        if !course.is_open(count) {
            return None;
        }
        Some(Next {
            to,
            course,
            first,
            count: told_count(teller.known, course.next, count),
        })
    }

    /// The next telling to the node of that number, if there is such a node.
    fn next_at<D: Disk>(
        &self,
        teller: &Teller,
        node: &Node<D>,
        cluster: Cluster,
        number: u8,
    ) -> Option<Next>
        requires { cluster ≡ node.now.cluster }
        ensures some { IfSome result (λ next. (s : AbstractNode) → IsNodeOf node.now s
            → IsNextTo self.now teller.now cluster s number next) }
        ensures none { IfNone result ((s : AbstractNode) → IsNodeOf node.now s → (c : Course)
            → IsNode cluster number → ¬ IsDueTo self.now teller.now s number c) }
    {
        let to = cluster.node(number)?;
        self.next_to(teller, node, to)
    }

    /// The first telling that is due, after the node that was told last.
    fn first_due<D: Disk>(&self, teller: &Teller, node: &Node<D>) -> Option<Next>
        ensures some { IfSome result (λ next. (s : AbstractNode) → IsNodeOf node.now s
            → IsFirstDue self.now teller.now node.now.cluster s next) }
        ensures none { IfNone result ((s : AbstractNode) → IsNodeOf node.now s
            → NobodyIsDue self.now teller.now node.now.cluster s) }
    {
        let cluster = node.cluster();
        let last = self.last.number();
        for place in 1..=9 {
            let next = self.next_at(teller, node, cluster, number_behind(last, place));
            if next.is_some() {
                return next;
            }
        }
        None
    }

    /// That telling is made.
    fn tell(&mut self, next: &Next)
        ensures { self.new ≡ told_so self.old next.now }
    {
        self.courses[usize::from(next.to.number()) - 1] = Some(next.course.told(next.count));
        self.last = next.to;
    }

    /// Whom a node tells next, and from which instance on, after it took in what was heard.
    pub(crate) fn next<D: Disk>(
        &mut self,
        teller: &Teller,
        node: &Node<D>,
    ) -> Option<(NodeId, Instance)>
        ensures { (s : AbstractNode) → IsNodeOf node.now s
            → TellsNext self.old teller.now node.now.cluster s result self.new }
    {
        self.take_in(teller.times, teller.at);
        let next = self.first_due(teller, node)?;
        self.tell(&next);
        Some((next.to, next.first))
    }
}
