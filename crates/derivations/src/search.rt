//! A search for a derivation by iterative deepening (Korf 1985), over any proof system with links back: depth first at
//! depth 1, 2, .. with an explicit stack, on one partial derivation that is extended and taken back in place.

ghost use Rattle.std.specs.Prelude.{ℕ, List, [], true, false, ◌≡◌, ◌<◌, ◌≤◌, ◌+◌, map, IfOk, OnOk, OnErr};
ghost use Rattle.derivations.specs.System.{System, after, search_of, IsFound, members, offers, partial};
ghost use Rattle.derivations.specs.Firsts.{FirstFound, IsIn};
ghost use Rattle.derivations.specs.Stack.{front};
ghost use Rattle.derivations.specs.Engine.{FaresSo, AreLinksTried, FitAlike, IsVisited, IsNext, IsDepthSearched};
ghost use Rattle.derivations.specs.Engine.{HasCounted, HasMore, InEach, IsFollowed};
ghost use Rattle.derivations.specs.Engine.{AreOffered, AreLinksOffered, AreFramesOffered, offers_in};
ghost use Rattle.derivations.specs.Cursors.{IsNextOf};
ghost use Rattle.cyc_basics.specs.Words.{Each};

use cyc_basics::memory::OutOfMemory;
use std::alloc::Global;
use std::collections::VecDeque;

/// The number of partial derivations at one depth at which a command gives its search up.
pub const DERIVATION_LIMIT: u32 = 1_000_000;

/// How a candidate fares: every lasso progresses with it, or some does not; or there are more product states than the
/// limit.
pub enum Tried {
    Admitted,
    Refused,
    TooManyStates,
}

/// A list that is made as it is told, member by member, and no further than it is asked for.
pub trait Cursor<R>: Drop {
    /// What is left of the list, in order.
    ghost left: { Self → List R };

    /// Tells the next member, if there is one, and goes on behind it. After out of memory the same is left.
    fn next(&mut self, alloc: Global) -> Result<Option<R>, OutOfMemory>
        ensures next { IfOk result (IsNextOf (left self.old) (left self.new)) }
        ensures kept { OnErr result (left self.new ≡ left self.old) };
}

/// A list that is made already.
impl<R: Drop> Cursor<R> for VecDeque<R> {
    ghost left = { λ q. q.items };

    fn next(&mut self, _alloc: Global) -> Result<Option<R>, OutOfMemory> {
        Ok(self.pop_front())
    }
}

/// What the next goal is offered, in order: links to be tried, and the rules for the case that no link is admitted,
/// which are told one by one. A list of rules is a cursor too.
#[derive(Drop)]
pub struct Offers<R, C = VecDeque<R>> {
    pub links: VecDeque<R>,
    pub rules: C,
}

/// A partial derivation that is changed in place.
pub trait Moves {
    /// Why a node holds. A derivation is its list of reasons, in preorder.
    type Reason: Drop;

    /// The rules that a goal is offered, told one by one.
    type Rules: Cursor<Self::Reason>;

    /// The reasons made so far.
    ghost made: { Self → List Self.Reason };

    /// What a derivation is about.
    type Subject;

    /// What this one is about, which no move changes.
    ghost subject: { Self → Self.Subject };

    /// The reasons that a derivation of this subject may be offered; any, where a logic does not say.
    ghost may_offer: { Self.Subject → Self.Reason → Type 0 } = { λ _ _. Unit {0} };

    /// What the moves need of their own state.
    ghost in_order: { Self → Type 0 };

    /// The system is the one that these moves follow.
    ghost follows: { Self → System Self.Reason → Type 0 };

    /// Whether no goal is open.
    fn is_complete(&self) -> bool
        requires { in_order self.now }
        ensures { (s : System Self.Reason) → follows self.now s → s.complete (made self.now) ≡ result };

    /// What the next goal is offered.
    fn offers(&self, alloc: Global) -> Result<Offers<Self::Reason, Self::Rules>, OutOfMemory>
        requires { in_order self.now }
        ensures links { IfOk result (λ o. InEach (follows self.now)
            (λ s. o.links.items ≡ s.candidates (made self.now))) }
        ensures rules { IfOk result (λ o. InEach (follows self.now)
            (λ s. Self.Rules.left o.rules ≡ s.rules (made self.now))) }
        ensures offered { IfOk result (AreOffered (may_offer (subject self.now)) Self.Rules.left) };

    /// What the next goal is offered; rules that do not fit within the depth may be left out.
    fn offers_within(
        &self,
        alloc: Global,
        bound: u32,
    ) -> Result<Offers<Self::Reason, Self::Rules>, OutOfMemory>
        requires { in_order self.now }
        ensures links { IfOk result (λ o. InEach (follows self.now)
            (λ s. o.links.items ≡ s.candidates (made self.now))) }
        ensures rules { IfOk result (λ o. InEach (follows self.now)
            (λ s. FitAlike s bound (made self.now) (Self.Rules.left o.rules) (s.rules (made self.now)))) }
        ensures offered { IfOk result (AreOffered (may_offer (subject self.now)) Self.Rules.left) }
    {
        let _bound = bound;
        let offers = self.offers(alloc)?;
        Ok(offers)
    }

    /// Tells how the derivation would fare with this link at its next goal, and leaves it as it was.
    fn try_link(&mut self, alloc: Global, link: &Self::Reason) -> Result<Tried, OutOfMemory>
        requires order { in_order self.old }
        requires offered { may_offer (subject self.old) link.now }
        ensures order { OnOk result (in_order self.new) }
        ensures made { OnOk result (made self.new ≡ made self.old) }
        ensures kept { OnOk result ((s : System Self.Reason) → follows self.old s → follows self.new s) }
        ensures subject { OnOk result (subject self.new ≡ subject self.old) }
        ensures tried { IfOk result (λ t. InEach (follows self.old)
            (λ s. FaresSo s (after (made self.old) link.now) t)) };

    /// Whether the product states of a derivation without open goals are above the limit.
    fn has_too_many_states(&mut self, alloc: Global) -> Result<bool, OutOfMemory>
        requires order { in_order self.old }
        requires complete { (s : System Self.Reason) → follows self.old s → s.complete (made self.old) ≡ true }
        ensures order { OnOk result (in_order self.new) }
        ensures made { OnOk result (made self.new ≡ made self.old) }
        ensures kept { OnOk result ((s : System Self.Reason) → follows self.old s → follows self.new s) }
        ensures subject { OnOk result (subject self.new ≡ subject self.old) }
        ensures above { IfOk result (λ b. InEach (follows self.old) (λ s. s.above (made self.old) ≡ b)) };

    /// Takes the reason at the next goal, if it fits within the depth; else leaves the derivation as it was.
    fn follow(
        &mut self,
        alloc: Global,
        bound: u32,
        reason: Self::Reason,
    ) -> Result<bool, OutOfMemory>
        requires order { in_order self.old }
        requires offered { may_offer (subject self.old) reason }
        ensures order { OnOk result (in_order self.new) }
        ensures kept { OnOk result ((s : System Self.Reason) → follows self.old s → follows self.new s) }
        ensures subject { OnOk result (subject self.new ≡ subject self.old) }
        ensures fits { IfOk result (λ b. InEach (follows self.old) (λ s. s.fits bound (made self.old) reason ≡ b)) }
        ensures made { IfOk result (IsFollowed (made self.old) reason (made self.new)) };

    /// Takes back the last reason, if there is one.
    fn undo(&mut self, alloc: Global) -> Result<(), OutOfMemory>
        requires { in_order self.old }
        ensures order { OnOk result (in_order self.new) }
        ensures kept { OnOk result ((s : System Self.Reason) → follows self.old s → follows self.new s) }
        ensures subject { OnOk result (subject self.new ≡ subject self.old) }
        ensures made { OnOk result (made self.new ≡ front (made self.old)) };
}

/// Why the search of a depth stops.
#[derive(Clone, Copy, PartialEq, Eq, Debug)]
pub enum Stop {
    Found,
    TooManyDerivations,
    TooManyStates,
}

/// What comes of trying candidates.
#[derive(Drop)]
enum Links<R> {
    Stopped(Stop),
    Tried(VecDeque<R>, u32),
}

/// What is left of the offers to a goal that a reason is given to: of the links that are admitted, or else of the
/// rules.
#[derive(Drop)]
enum Frame<R, C> {
    Links(VecDeque<R>),
    Rules(C),
}

/// The next offer, if one is left.
fn next_offer<R: Drop, C: Cursor<R>>(
    alloc: Global,
    frame: &mut Frame<R, C>,
) -> Result<Option<R>, OutOfMemory>
    ensures { IfOk result (IsNextOf (offers_in C.left frame.old) (offers_in C.left frame.new)) }
{
    match frame {
        Frame::Links(links) => Ok(links.pop_front()),
        Frame::Rules(rules) => rules.next(alloc),
    }
}

/// What comes of visiting a member.
#[derive(Clone, Copy)]
enum Visit {
    Stopped(Stop),
    On(u32),
}

/// Tries the candidates in order.
fn try_links<M: Moves>(
    alloc: Global,
    moves: &mut M,
    mut links: VecDeque<M::Reason>,
    mut count: u32,
    most: u32,
) -> Result<Links<M::Reason>, OutOfMemory>
    requires count { count < most }
    requires order { M.in_order moves.old }
    requires offered { Each (M.may_offer (M.subject moves.old)) links.items }
    ensures more { IfOk result (λ l. HasCounted count most l) }
    ensures made { OnOk result (M.made moves.new ≡ M.made moves.old) }
    ensures order { OnOk result (M.in_order moves.new) }
    ensures kept { OnOk result ((s : System M.Reason) → M.follows moves.old s → M.follows moves.new s) }
    ensures subject { OnOk result (M.subject moves.new ≡ M.subject moves.old) }
    ensures offered { IfOk result (λ l. AreLinksOffered (M.may_offer (M.subject moves.old)) l) }
    ensures tried { IfOk result (λ l. InEach (M.follows moves.old)
        (λ s. AreLinksTried s most count (M.made moves.old) links.items l)) }
{
    let mut admitted = VecDeque::new(alloc);
    while let Some(link) = links.pop_front() {
        match moves.try_link(alloc, &link)? {
            Tried::TooManyStates => return Ok(Links::Stopped(Stop::TooManyStates)),
            Tried::Admitted => admitted.push_back(link)?,
            Tried::Refused => {
                count += 1;
                if count == most {
                    return Ok(Links::Stopped(Stop::TooManyDerivations));
                }
            }
        }
    }
    Ok(Links::Tried(admitted, count))
}

/// Visits a member: counts it, stops at a complete one, and else puts its offers within the depth on the stack.
fn visit_member<M: Moves>(
    alloc: Global,
    moves: &mut M,
    frames: &mut Vec<Frame<M::Reason, M::Rules>>,
    bound: u32,
    count: u32,
    most: u32,
) -> Result<Visit, OutOfMemory>
    requires count { count < most }
    requires order { M.in_order moves.old }
    requires offered { AreFramesOffered (M.may_offer (M.subject moves.old))
        (map (offers_in M.Rules.left) frames.old.items) }
    ensures more { IfOk result (λ v. HasMore count most v) }
    ensures made { OnOk result (M.made moves.new ≡ M.made moves.old) }
    ensures order { OnOk result (M.in_order moves.new) }
    ensures kept { OnOk result ((s : System M.Reason) → M.follows moves.old s → M.follows moves.new s) }
    ensures subject { OnOk result (M.subject moves.new ≡ M.subject moves.old) }
    ensures offered { OnOk result (AreFramesOffered (M.may_offer (M.subject moves.old))
        (map (offers_in M.Rules.left) frames.new.items)) }
    ensures visited { IfOk result (λ v. InEach (M.follows moves.old)
        (λ s. IsVisited s most bound count (M.made moves.old)
        (map (offers_in M.Rules.left) frames.old.items) (map (offers_in M.Rules.left) frames.new.items) v)) }
{
    let count = count + 1;
    if count == most {
        return Ok(Visit::Stopped(Stop::TooManyDerivations));
    }
    if moves.is_complete() {
        if moves.has_too_many_states(alloc)? {
            return Ok(Visit::Stopped(Stop::TooManyStates));
        }
        return Ok(Visit::Stopped(Stop::Found));
    }
    let Offers { links, rules } = moves.offers_within(alloc, bound)?;
    match try_links(alloc, moves, links, count, most)? {
        Links::Stopped(stop) => Ok(Visit::Stopped(stop)),
        Links::Tried(admitted, count) => {
            if admitted.is_empty() {
                frames.push(Frame::Rules(rules))?;
            } else {
                frames.push(Frame::Links(admitted))?;
            }
            Ok(Visit::On(count))
        }
    }
}

/// Goes on to the next member, if there is one within the bound.
fn advance<M: Moves>(
    alloc: Global,
    moves: &mut M,
    frames: &mut Vec<Frame<M::Reason, M::Rules>>,
    bound: u32,
) -> Result<bool, OutOfMemory>
    requires order { M.in_order moves.old }
    requires offered { AreFramesOffered (M.may_offer (M.subject moves.old))
        (map (offers_in M.Rules.left) frames.old.items) }
    ensures order { OnOk result (M.in_order moves.new) }
    ensures kept { OnOk result ((s : System M.Reason) → M.follows moves.old s → M.follows moves.new s) }
    ensures subject { OnOk result (M.subject moves.new ≡ M.subject moves.old) }
    ensures offered { OnOk result (AreFramesOffered (M.may_offer (M.subject moves.old))
        (map (offers_in M.Rules.left) frames.new.items)) }
    ensures next { IfOk result (λ more. InEach (M.follows moves.old)
        (λ s. IsNext s bound (M.made moves.old) (map (offers_in M.Rules.left) frames.old.items)
        (M.made moves.new) (map (offers_in M.Rules.left) frames.new.items) more)) }
{
    while let Some(mut frame) = frames.pop() {
        while let Some(reason) = next_offer(alloc, &mut frame)? {
            if moves.follow(alloc, bound, reason)? {
                frames.push(frame)?;
                return Ok(true);
            }
        }
        moves.undo(alloc)?;
    }
    Ok(false)
}

/// Searches one depth, from the empty derivation. `most` is the count of partial derivations at which it stops. None
/// where it does not stop; what is found stays in the moves.
pub fn search_depth<M: Moves>(
    alloc: Global,
    moves: &mut M,
    bound: u32,
    most: u32,
) -> Result<Option<Stop>, OutOfMemory>
    requires order { M.in_order moves.old }
    requires start { M.made moves.old ≡ [] }
    requires most { 0 < most }
    ensures order { OnOk result (M.in_order moves.new) }
    ensures kept { OnOk result ((s : System M.Reason) → M.follows moves.old s → M.follows moves.new s) }
    ensures subject { OnOk result (M.subject moves.new ≡ M.subject moves.old) }
    ensures searched { IfOk result (λ stop. InEach (M.follows moves.old)
        (λ s. IsDepthSearched s most bound (M.made moves.new) stop)) }
{
    let mut frames = Vec::new(alloc);
    let mut count = 0;
    loop {
        match visit_member(alloc, moves, &mut frames, bound, count, most)? {
            Visit::Stopped(stop) => return Ok(Some(stop)),
            Visit::On(more) => count = more,
        }
        if !advance(alloc, moves, &mut frames, bound)? {
            return Ok(None);
        }
    }
}

/// What is found is the first complete derivation of the least depth that has one.
pub fn found_is_first<M: Moves>(_moves: &M)
    ensures { (s : System M.Reason) (most depth : ℕ) (d : List M.Reason)
        → search_of s most depth ≡ IsFound d → FirstFound s 1 depth d }
{}

/// The list of partial derivations is cut nowhere: any number of reasons from the limit on gives the same list.
pub fn nothing_is_cut<M: Moves>(_moves: &M)
    ensures { (s : System M.Reason) (e n : ℕ) → s.limit ≤ n → members s e n [] ≡ partial s e }
{}

/// Where no offer is left out for its depth, a greater depth has the same partial derivations.
pub fn nothing_deeper<M: Moves>(_moves: &M)
    ensures { (s : System M.Reason) (e : ℕ)
        → ((m : List M.Reason) → IsIn (partial s e) m → offers s e m ≡ offers s (e + 1) m)
        → partial s e ≡ partial s (e + 1) }
{}
