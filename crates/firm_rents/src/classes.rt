//! Rents in levels, behind their amounts by classes of places, and how they compare.
ghost use Rattle.std.specs.Prelude.{◌≡◌, ◌≢◌, ◌^◌, ◌<◌, ◌≤◌, true, false, ℕ, List, length, suc};
ghost use Rattle.firm_rents.specs.Levels.{IsAtMost};
ghost use Rattle.firm_levels.specs.declared.Class.{Class as ClassOf};
ghost use Rattle.firm_rents.specs.inner.Classes.{number, AreClasses, offered, Covers, Differ};
ghost use Rattle.firm_rents.specs.inner.Classes.{IsCheaperFrom, IsKnown, IsParting, IsPartingOf};

use firm_levels::Class;

/// A choice's cost to a task with its rent, and the time of the choice.
#[derive(Clone, Copy)]
pub(crate) struct Offer {
    pub(crate) amount: u64,
    pub(crate) class: u32,
    pub(crate) time: u32,
}

/// The first times at which one offer is less and at which it is more than another; 2^32 if it never is.
#[derive(Clone, Copy)]
struct Differences {
    less: u64,
    more: u64,
}

/// The first time at which the numbers of two classes may differ, and what they are then.
#[derive(Clone, Copy)]
pub(crate) struct Parting {
    time: u64,
    one: u32,
    other: u32,
}

/// The last divergence of two classes: neighbouring tasks often go to the same machine.
#[derive(Clone, Copy)]
pub(crate) struct Known {
    one: u32,
    other: u32,
    parting: Parting,
}

/// The time and the number of the class that was left behind last on a way to the first class; `NEVER` before.
#[derive(Clone, Copy)]
struct Left {
    time: u64,
    number: u32,
}

/// No time.
const NEVER: u64 = 1 << 32;

/// Whether the one offer is at most the other, level by level. It is inlined, as amounts tell most offers apart.
#[inline(always)]
pub(crate) fn is_at_most(classes: &[Class], one: Offer, other: Offer) -> bool
    requires tree { AreClasses classes.now }
    requires one { one.class < length classes.now }
    requires other { other.class < length classes.now }
    ensures yes { result ≡ true → IsAtMost (offered classes.now one) (offered classes.now other) }
    ensures no { result ≡ false → IsAtMost (offered classes.now other) (offered classes.now one) }
{
    if one.amount != other.amount {
        return one.amount < other.amount;
    }
    let parting = parting_of(classes, one.class, other.class);
    is_at_most_parted(classes, parting, one, other)
}

// The divergence of two classes, if they differ. Inlined: most calls end at the first comparison.
#[inline(always)]
fn parting_of(classes: &[Class], one: u32, other: u32) -> Parting
    requires tree { AreClasses classes.now }
    requires one { one < length classes.now }
    requires other { other < length classes.now }
    ensures { IsPartingOf classes.now one other result }
{
    if one == other {
        return Parting::NOWHERE;
    }
    first_parting(classes, one, other)
}

/// Whether the one offer is at most the other, where their amounts are the same and their classes part so.
/// Inlined: most calls end at the first comparison.
#[inline(always)]
pub(crate) fn is_at_most_parted(
    classes: &[Class],
    parting: Parting,
    one: Offer,
    other: Offer,
) -> bool
    requires tree { AreClasses classes.now }
    requires one { one.class < length classes.now }
    requires other { other.class < length classes.now }
    requires amounts { one.amount ≡ other.amount }
    requires parting { IsPartingOf classes.now one.class other.class parting }
    ensures yes { result ≡ true → IsAtMost (offered classes.now one) (offered classes.now other) }
    ensures no { result ≡ false → IsAtMost (offered classes.now other) (offered classes.now one) }
{
    if one.class == other.class {
        return one.time <= other.time;
    }
    is_at_most_behind(classes, parting, one, other)
}

// The same where their classes are not the same.
fn is_at_most_behind(classes: &[Class], parting: Parting, one: Offer, other: Offer) -> bool
    requires tree { AreClasses classes.now }
    requires one { one.class < length classes.now }
    requires other { other.class < length classes.now }
    requires amounts { one.amount ≡ other.amount }
    requires parting { IsParting (number classes.now one.class) (number classes.now other.class) parting }
    ensures yes { result ≡ true → IsAtMost (offered classes.now one) (offered classes.now other) }
    ensures no { result ≡ false → IsAtMost (offered classes.now other) (offered classes.now one) }
{
    if u64::from(one.time.min(other.time)) < parting.time && one.time != other.time {
        return one.time < other.time;
    }
    let here = marked(one, parting.one, parting.time);
    let there = marked(other, parting.other, parting.time);
    if here != there {
        return here < there;
    }
    let found = first_differences(classes, one, other);
    found.less <= found.more
}

/// The time from which on the one offer is at most the other, since it ranks before it; 2^32 or
/// more if there is no such time. The offers' own times do not count.
pub(crate) fn cheaper_since(classes: &[Class], one: Offer, other: Offer) -> u64
    requires tree { AreClasses classes.now }
    requires one { one.class < length classes.now }
    requires other { other.class < length classes.now }
    ensures { (time a b : ℕ) → result ≤ time → time < 2 ^ 32 → time ≤ a → time ≤ b
        → IsAtMost (offered classes.now (record one { time = a })) (offered classes.now (record other { time = b })) }
{
    if one.amount != other.amount {
        return if one.amount < other.amount { 0 } else { NEVER };
    }
    cheaper_from(classes, one.class, other.class).saturating_add(1)
}

// The first time at which two classes differ, if the one is cheaper then; else 2^32.
fn cheaper_from(classes: &[Class], one: u32, other: u32) -> u64
    requires tree { AreClasses classes.now }
    requires one { one < length classes.now }
    requires other { other < length classes.now }
    ensures { result < 2 ^ 32 → IsCheaperFrom (number classes.now one) (number classes.now other) result }
{
    cheaper_from_parted(classes, parting_of(classes, one, other), one, other)
}

/// The first time at which two classes that part so differ, if the one is cheaper then; else 2^32.
pub(crate) fn cheaper_from_parted(classes: &[Class], parting: Parting, one: u32, other: u32) -> u64
    requires tree { AreClasses classes.now }
    requires one { one < length classes.now }
    requires other { other < length classes.now }
    requires parting { IsPartingOf classes.now one other parting }
    ensures { result < 2 ^ 32 → IsCheaperFrom (number classes.now one) (number classes.now other) result }
{
    if one == other {
        return NEVER;
    }
    if parting.one != parting.other {
        return if parting.one < parting.other {
            parting.time
        } else {
            NEVER
        };
    }
    let first = Offer {
        amount: 0,
        class: one,
        time: 0,
    };
    let second = Offer {
        class: other,
        ..first
    };
    let found = first_differences(classes, first, second);
    if found.less < found.more {
        found.less
    } else {
        NEVER
    }
}

// The first time at which the numbers of two classes may differ: the earlier of those at which the classes were parted
// from the nearest one that both belong to.
fn first_parting(classes: &[Class], one: u32, other: u32) -> Parting
    requires tree { AreClasses classes.now }
    requires one { one < length classes.now }
    requires other { other < length classes.now }
    requires apart { one ≢ other }
    ensures { IsParting (number classes.now one) (number classes.now other) result }
{
    let mut here = one;
    let mut there = other;
    let mut first = Left::NONE;
    let mut second = Left::NONE;
    while here != there {
        if there < here {
            let class = classes[here as usize];
            first = Left::of(class);
            here = class.parent;
        } else {
            let class = classes[there as usize];
            second = Left::of(class);
            there = class.parent;
        }
    }
    if first.time < second.time {
        return Parting {
            time: first.time,
            one: first.number,
            other: 1,
        };
    }
    if second.time < first.time {
        return Parting {
            time: second.time,
            one: 1,
            other: second.number,
        };
    }
    Parting {
        time: first.time,
        one: first.number,
        other: second.number,
    }
}

impl Known {
    /// Nothing.
    pub(crate) const NOTHING: Known = Known {
        one: 0,
        other: 0,
        parting: Parting::NOWHERE,
    };

    /// The divergence of these two. Inlined: most calls end at the first comparison.
    #[inline(always)]
    pub(crate) fn parting(&mut self, classes: &[Class], one: u32, other: u32) -> Parting
        requires tree { AreClasses classes.now }
        requires one { one < length classes.now }
        requires other { other < length classes.now }
        requires known { IsKnown classes.now self.old }
        ensures known { IsKnown classes.now self.new }
        ensures parting { IsPartingOf classes.now one other result }
    {
        if self.one == one && self.other == other {
            return self.parting;
        }
        let parting = parting_of(classes, one, other);
        *self = Known {
            one,
            other,
            parting,
        };
        parting
    }

    /// Whether the one offer is at most the other, level by level. Inlined, since a round calls it once for each task.
    #[inline(always)]
    pub(crate) fn is_at_most(&mut self, classes: &[Class], one: Offer, other: Offer) -> bool
        requires tree { AreClasses classes.now }
        requires one { one.class < length classes.now }
        requires other { other.class < length classes.now }
        requires known { IsKnown classes.now self.old }
        ensures known { IsKnown classes.now self.new }
        ensures yes { result ≡ true → IsAtMost (offered classes.now one) (offered classes.now other) }
    {
        if one.amount != other.amount {
            return one.amount < other.amount;
        }
        let parting = self.parting(classes, one.class, other.class);
        is_at_most_parted(classes, parting, one, other)
    }
}

impl Parting {
    /// Of a class and itself.
    const NOWHERE: Parting = Parting {
        time: NEVER,
        one: 1,
        other: 1,
    };
}

impl Left {
    /// None.
    const NONE: Left = Left {
        time: NEVER,
        number: 1,
    };

    fn of(class: Class) -> Left
        ensures same { (result.time ≡ class.time) × (result.number ≡ class.number) }
        ensures some { result.time < 2 ^ 32 }
    {
        Left {
            time: u64::from(class.time),
            number: class.number,
        }
    }
}

// The offer at a time at which its class has this number.
fn marked(offer: Offer, own: u32, time: u64) -> u64
    ensures { (classes : List ClassOf) → number classes offer.class time ≡ own
        → offered classes offer (suc time) ≡ result }
{
    if time == u64::from(offer.time) {
        u64::from(own)
    } else {
        1 + u64::from(own)
    }
}

// The first times at which two offers differ behind their amounts. Looks only at the times of the two choices and at
// those of classes that not both belong to.
fn first_differences(classes: &[Class], one: Offer, other: Offer) -> Differences
    requires tree { AreClasses classes.now }
    requires one { one.class < length classes.now }
    requires other { other.class < length classes.now }
    ensures covers { (t : ℕ) → Covers (offered classes.now one) (offered classes.now other) result t }
    ensures differ { Differ (offered classes.now one) (offered classes.now other) result }
{
    let mut found = at_choices(classes, one, other);
    let mut here = one.class;
    let mut there = other.class;
    while here != there {
        if there < here {
            let class = classes[here as usize];
            found = looked_at(classes, one, other, class.time, found);
            here = class.parent;
        } else {
            let class = classes[there as usize];
            found = looked_at(classes, one, other, class.time, found);
            there = class.parent;
        }
    }
    found
}

// The first times among those of the two choices.
fn at_choices(classes: &[Class], one: Offer, other: Offer) -> Differences
    requires tree { AreClasses classes.now }
    requires one { one.class < length classes.now }
    requires other { other.class < length classes.now }
    ensures one { Covers (offered classes.now one) (offered classes.now other) result one.time }
    ensures other { Covers (offered classes.now one) (offered classes.now other) result other.time }
    ensures differ { Differ (offered classes.now one) (offered classes.now other) result }
{
    let none = Differences {
        less: NEVER,
        more: NEVER,
    };
    let found = looked_at(classes, one, other, one.time, none);
    if other.time == one.time {
        return found;
    }
    looked_at(classes, one, other, other.time, found)
}

// The first times once this time is looked at too.
fn looked_at(
    classes: &[Class],
    one: Offer,
    other: Offer,
    time: u32,
    found: Differences,
) -> Differences
    requires tree { AreClasses classes.now }
    requires one { one.class < length classes.now }
    requires other { other.class < length classes.now }
    ensures covers { Covers (offered classes.now one) (offered classes.now other) result time }
    ensures kept { (t : ℕ) → Covers (offered classes.now one) (offered classes.now other) found t
        → Covers (offered classes.now one) (offered classes.now other) result t }
    ensures differ { Differ (offered classes.now one) (offered classes.now other) found
        → Differ (offered classes.now one) (offered classes.now other) result }
{
    let here = offered_at(classes, one, time);
    let there = offered_at(classes, other, time);
    let mut looked = found;
    if here < there {
        looked.less = looked.less.min(u64::from(time));
    }
    if there < here {
        looked.more = looked.more.min(u64::from(time));
    }
    looked
}

// The offer at a time.
fn offered_at(classes: &[Class], offer: Offer, time: u32) -> u64
    requires tree { AreClasses classes.now }
    requires offer { offer.class < length classes.now }
    ensures offered { result ≡ offered classes.now offer (suc time) }
{
    let number = u64::from(number_at(classes, offer.class, time));
    if time == offer.time {
        number
    } else {
        1 + number
    }
}

// The number of a class at a time.
fn number_at(classes: &[Class], class: u32, time: u32) -> u32
    requires tree { AreClasses classes.now }
    requires class { class < length classes.now }
    ensures number { result ≡ number classes.now class time }
{
    let mut at = class;
    while at > 0 {
        let here = classes[at as usize];
        if here.time == time {
            return here.number;
        }
        at = here.parent;
    }
    1
}
