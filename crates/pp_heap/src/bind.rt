//! Binding a variable, and giving it another domain.
ghost use Rattle.std.specs.Prelude.{◌≡◌, ℕ, ◌<◌, ◌≤◌, ◌++◌, ◌∷◌, [], length, slice_set, IfOk, OnErr, MatchOption, Some, None, IfSome};
ghost use Rattle.std.specs.FinSet as set;
ghost use Rattle.pp_algebra.specs.Solve.{membership};
ghost use Rattle.pp_algebra.specs.Covers.{IsIn};
ghost use Rattle.pp_algebra.specs.Terms.{int, node, none, variable, variables, put};
ghost use Rattle.pp_algebra.specs.Members.{IsInteger};
ghost use Rattle.pp_domain.specs.Sets.{set_of};
ghost use Rattle.pp_heap.specs.Values.{slot_of, value_term, term_at, domain_by};
ghost use Rattle.pp_heap.specs.Stores.{store_of, solution};
ghost use Rattle.pp_heap.specs.Soundness.{IsGood, IsFixed, IsPlace};
ghost use Rattle.pp_heap.specs.Outcomes.{IsFree, IsUnbound, IsChange, IsSame, IsAnswer, IsVerdict, HasOnly, IsMeeting, IsSettled, IsHeld, IsAllowed, IsCalm, IsLater};

use crate::spans::Span;
use crate::state::{Entry, Slot, State, Value};
use pp_domain::Domain;
use std::alloc::AllocError;

/// What two domains have in common: nothing, one integer, or what the domain at a place holds.
#[derive(Clone, Copy, Debug, PartialEq, Eq)]
pub(crate) enum Meeting {
    Empty,
    One(i64),
    Many(Option<u32>),
}

/// The one member, where there are no others.
fn only_member(domain: &Domain) -> Option<i64>
    ensures { MatchOption result (2 ≤ set.len (set_of domain.now)) (HasOnly (set_of domain.now)) }
{
    let intervals = domain.intervals();
    if domain.size() == 1 {
        Some(intervals[0].0)
    } else {
        None
    }
}

impl State {
    /// Binds a free variable.
    pub fn bind(
        &mut self,
        variable: u32,
        domain: Option<u32>,
        value: Value,
    ) -> Result<(), AllocError>
        requires free { IsFree (store_of self.old) variable domain }
        ensures done { IfOk result (λ _. IsChange self.old self.new (Entry.Bound variable domain) (record (store_of self.old) { slots = slice_set self.old.slots.items variable (slot_of value) })) }
        ensures err { OnErr result (IsSame self.old self.new) }
    {
        self.trail.push(Entry::Bound(variable, domain))?;
        self.slots[variable as usize] = value.slot();
        Ok(())
    }

    /// Adds a variable that is bound, and answers its number.
    pub fn define(&mut self, value: Value) -> Result<u32, AllocError>
        ensures number { IfOk result (λ n. n ≡ length self.old.slots.items) }
        ensures done { IfOk result (λ n. IsChange self.old self.new (Entry.Defined n) (record (store_of self.old) { slots = self.old.slots.items ++ slot_of value ∷ [] })) }
        ensures err { OnErr result (IsSame self.old self.new) }
    {
        let number = u32::try_from(self.slots.len()).map_err(|_| AllocError)?;
        self.slots.reserve(1)?;
        self.trail.push(Entry::Defined(number))?;
        self.slots.push_reserved(value.slot());
        Ok(number)
    }

    /// Adds the next variable, which has this number and is bound, with its slot.
    pub fn define_slot(&mut self, number: u32, slot: Slot) -> Result<(), AllocError>
        requires next { number ≡ length self.old.slots.items }
        ensures done { IfOk result (λ _. IsChange self.old self.new (Entry.Defined number) (record (store_of self.old) { slots = self.old.slots.items ++ slot ∷ [] })) }
        ensures err { OnErr result (IsSame self.old self.new) }
    {
        self.slots.reserve(1)?;
        self.trail.push(Entry::Defined(number))?;
        self.slots.push_reserved(slot);
        Ok(())
    }

    /// Gives a free variable another domain.
    fn give(&mut self, variable: u32, old: Option<u32>, new: Option<u32>) -> Result<(), AllocError>
        requires free { IsFree (store_of self.old) variable old }
        ensures done { IfOk result (λ _. IsChange self.old self.new (Entry.Narrowed variable old) (record (store_of self.old) { slots = slice_set self.old.slots.items variable (Slot.Free new) })) }
        ensures err { OnErr result (IsSame self.old self.new) }
    {
        self.trail.push(Entry::Narrowed(variable, old))?;
        self.slots[variable as usize] = Slot::Free(new);
        Ok(())
    }

    /// Puts a domain to the domains, and answers its place.
    pub(crate) fn hold(&mut self, domain: Domain) -> Result<u32, AllocError>
        requires good { IsGood self.old }
        requires wide { 2 ≤ set.len (set_of domain) }
        ensures calm { IsCalm self.old self.new }
        ensures place { IfOk result (λ d. d ≡ length self.old.domains.items) }
        ensures domains { IfOk result (λ _. self.new.domains.items ≡ self.old.domains.items ++ domain ∷ []) }
    {
        let place = u32::try_from(self.domains.len()).map_err(|_| AllocError)?;
        self.trail.push(Entry::Held(place))?;
        self.domains.push(domain)?;
        Ok(place)
    }

    /// What is in the domain, which is held where it has at least two integers.
    fn settle(&mut self, domain: Option<Domain>) -> Result<Meeting, AllocError>
        requires good { IsGood self.old }
        ensures calm { IsCalm self.old self.new }
        ensures settled { IfOk result (IsSettled self.new.domains.items domain) }
    {
        let Some(domain) = domain else {
            return Ok(Meeting::Empty);
        };
        match only_member(&domain) {
            Some(value) => Ok(Meeting::One(value)),
            None => Ok(Meeting::Many(Some(self.hold(domain)?))),
        }
    }

    /// What the domains at two places have in common.
    fn meet_places(&mut self, one: Option<u32>, other: Option<u32>) -> Result<Meeting, AllocError>
        requires good { IsGood self.old }
        requires one { IsPlace self.old.domains.items one }
        requires other { IsPlace self.old.domains.items other }
        ensures calm { IsCalm self.old self.new }
        ensures meeting { IfOk result (IsMeeting self.new.domains.items (domain_by self.old.domains.items one) (domain_by self.old.domains.items other)) }
    {
        match (one, other) {
            (None, _) => Ok(Meeting::Many(other)),
            (_, None) => Ok(Meeting::Many(one)),
            (Some(one), Some(other)) => {
                let common = self.domains[one as usize].meet(&self.domains[other as usize])?;
                self.settle(common)
            }
        }
    }

    /// What a domain and the domain at a place have in common.
    fn meet_domain(&mut self, place: Option<u32>, domain: &Domain) -> Result<Meeting, AllocError>
        requires good { IsGood self.old }
        requires place { IsPlace self.old.domains.items place }
        ensures calm { IsCalm self.old self.new }
        ensures meeting { IfOk result (IsMeeting self.new.domains.items (domain_by self.old.domains.items place) (Some (set_of domain.now))) }
    {
        let common = match place {
            None => Some(domain.copy()?),
            Some(place) => self.domains[place as usize].meet(domain)?,
        };
        self.settle(common)
    }

    /// Makes two free variables one: the later one is bound to the earlier one, or both to an integer.
    pub fn merge(&mut self, one: u32, other: u32) -> Result<bool, AllocError>
        requires good { IsGood self.old }
        requires one { IsUnbound (store_of self.old) one }
        requires other { IsUnbound (store_of self.old) other }
        ensures later { IsLater self.old self.new }
        ensures answer { IfOk result (IsAnswer self.old self.new (variable one) (variable other)) }
    {
        if one < other {
            self.merge_later(one, other)
        } else if other < one {
            self.merge_later(other, one)
        } else {
            Ok(true)
        }
    }

    /// The same of two variables of which the first is the earlier one.
    fn merge_later(&mut self, low: u32, high: u32) -> Result<bool, AllocError>
        requires good { IsGood self.old }
        requires low { IsUnbound (store_of self.old) low }
        requires high { IsUnbound (store_of self.old) high }
        requires order { low < high }
        ensures later { IsLater self.old self.new }
        ensures answer { IfOk result (IsAnswer self.old self.new (variable low) (variable high)) }
    {
        let low_domain = self.domain_place(low);
        let high_domain = self.domain_place(high);
        match self.meet_places(low_domain, high_domain)? {
            Meeting::Empty => Ok(false),
            Meeting::One(value) => {
                self.bind(low, low_domain, Value::Int(value))?;
                self.bind(high, high_domain, Value::Int(value))?;
                Ok(true)
            }
            Meeting::Many(domain) => {
                self.give(low, low_domain, domain)?;
                self.bind(high, high_domain, Value::Variable(low))?;
                Ok(true)
            }
        }
    }

    /// The place of a free variable's domain.
    pub fn domain_place(&self, variable: u32) -> Option<u32>
        requires unbound { IsUnbound (store_of self.now) variable }
        ensures { IsFree (store_of self.now) variable result }
    {
        match self.slots[variable as usize] {
            Slot::Free(domain) => domain,
            _ => None,
        }
    }

    /// Binds a free variable to what is no variable. The work is a stack that is kept from call to call for its
    /// memory alone.
    pub fn assign(
        &mut self,
        free: u32,
        value: Value,
        work: &mut Vec<Span>,
    ) -> Result<bool, AllocError>
        requires good { IsGood self.old }
        requires unbound { IsUnbound (store_of self.old) free }
        requires fixed { IsFixed self.old.heap.items value }
        ensures later { IsLater self.old self.new }
        ensures answer { IfOk result (IsAnswer self.old self.new (variable free) (value_term self.old.heap.items value)) }
    {
        match value {
            Value::Int(value) => self.assign_int(free, value),
            Value::Atom(name) => self.assign_atom(free, name),
            Value::Compound(place) => self.assign_compound(free, place, work),
            Value::Variable(_) => Ok(false),
        }
    }

    /// Binds a free variable to a compound, where it isn't in it.
    pub fn assign_compound(
        &mut self,
        free: u32,
        place: u32,
        work: &mut Vec<Span>,
    ) -> Result<bool, AllocError>
        requires good { IsGood self.old }
        requires unbound { IsUnbound (store_of self.old) free }
        requires fixed { IsFixed self.old.heap.items (Value.Compound place) }
        ensures later { IsLater self.old self.new }
        ensures answer { IfOk result (IsAnswer self.old self.new (variable free) (term_at self.old.heap.items place)) }
    {
        match self.domain_place(free) {
            Some(_) => Ok(false),
            None => {
                if self.occurs(free, place, work)? {
                    return Ok(false);
                }
                self.bind_compound(free, place)?;
                Ok(true)
            }
        }
    }

    /// The same where it is known that the variable isn't in the compound.
    pub fn assign_apart(&mut self, free: u32, place: u32) -> Result<bool, AllocError>
        requires good { IsGood self.old }
        requires unbound { IsUnbound (store_of self.old) free }
        requires fixed { IsFixed self.old.heap.items (Value.Compound place) }
        requires apart { IsIn free (variables (put (solution self.old) (term_at self.old.heap.items place))) → ⊥ }
        ensures later { IsLater self.old self.new }
        ensures answer { IfOk result (IsAnswer self.old self.new (variable free) (term_at self.old.heap.items place)) }
    {
        match self.domain_place(free) {
            Some(_) => Ok(false),
            None => {
                self.bind_compound(free, place)?;
                Ok(true)
            }
        }
    }

    /// The same where its domain is `any`.
    fn bind_compound(&mut self, variable: u32, place: u32) -> Result<(), AllocError>
        requires free { IsFree (store_of self.old) variable None }
        ensures done { IfOk result (λ _. IsChange self.old self.new (Entry.Bound variable None) (record (store_of self.old) { slots = slice_set self.old.slots.items variable (Slot.Compound place) })) }
        ensures err { OnErr result (IsSame self.old self.new) }
    {
        self.trail.push(Entry::Bound(variable, None))?;
        self.slots[variable as usize] = Slot::Compound(place);
        Ok(())
    }

    /// Binds a free variable to an integer, where its domain allows it.
    pub fn assign_int(&mut self, free: u32, value: i64) -> Result<bool, AllocError>
        requires good { IsGood self.old }
        requires unbound { IsUnbound (store_of self.old) free }
        requires integer { IsInteger value }
        ensures later { IsLater self.old self.new }
        ensures answer { IfOk result (IsAnswer self.old self.new (variable free) (int value)) }
    {
        let domain = self.domain_place(free);
        let allowed = self.holds(domain, value);
        if allowed {
            self.bind_int(free, domain, value)?;
        }
        Ok(allowed)
    }

    fn bind_int(&mut self, variable: u32, domain: Option<u32>, value: i64) -> Result<(), AllocError>
        requires free { IsFree (store_of self.old) variable domain }
        ensures done { IfOk result (λ _. IsChange self.old self.new (Entry.Bound variable domain) (record (store_of self.old) { slots = slice_set self.old.slots.items variable (Slot.Int value) })) }
        ensures err { OnErr result (IsSame self.old self.new) }
    {
        self.trail.push(Entry::Bound(variable, domain))?;
        self.slots[variable as usize] = Slot::Int(value);
        Ok(())
    }

    /// Binds a free variable to an atom, where its domain is `any`.
    pub fn assign_atom(&mut self, free: u32, name: u32) -> Result<bool, AllocError>
        requires good { IsGood self.old }
        requires unbound { IsUnbound (store_of self.old) free }
        ensures later { IsLater self.old self.new }
        ensures answer { IfOk result (IsAnswer self.old self.new (variable free) (node name none)) }
    {
        match self.domain_place(free) {
            Some(_) => Ok(false),
            None => {
                self.bind_atom(free, name)?;
                Ok(true)
            }
        }
    }

    fn bind_atom(&mut self, variable: u32, name: u32) -> Result<(), AllocError>
        requires free { IsFree (store_of self.old) variable None }
        ensures done { IfOk result (λ _. IsChange self.old self.new (Entry.Bound variable None) (record (store_of self.old) { slots = slice_set self.old.slots.items variable (Slot.Atom name) })) }
        ensures err { OnErr result (IsSame self.old self.new) }
    {
        self.trail.push(Entry::Bound(variable, None))?;
        self.slots[variable as usize] = Slot::Atom(name);
        Ok(())
    }

    /// Whether the integer is in the domain at the place.
    fn holds(&self, place: Option<u32>, value: i64) -> bool
        requires place { IsPlace self.now.domains.items place }
        ensures { IsHeld (domain_by self.now.domains.items place) value result }
    {
        match place {
            None => true,
            Some(place) => self.domains[place as usize].has(value),
        }
    }

    /// Makes a variable be in the domain.
    pub fn narrow(&mut self, number: u32, domain: &Domain) -> Result<bool, AllocError>
        requires good { IsGood self.old }
        requires within { number < length self.old.slots.items }
        ensures later { IsLater self.old self.new }
        ensures verdict { IfOk result (IsVerdict self.old self.new (membership (variable number) (set_of domain.now))) }
    {
        match self.value_of(number) {
            Value::Variable(free) => self.narrow_free(free, domain),
            Value::Int(value) => Ok(domain.has(value)),
            _ => Ok(false),
        }
    }

    /// Makes a free variable be in the domain.
    fn narrow_free(&mut self, free: u32, domain: &Domain) -> Result<bool, AllocError>
        requires good { IsGood self.old }
        requires unbound { IsUnbound (store_of self.old) free }
        ensures later { IsLater self.old self.new }
        ensures verdict { IfOk result (IsVerdict self.old self.new (membership (variable free) (set_of domain.now))) }
    {
        let place = self.domain_place(free);
        match self.meet_domain(place, domain)? {
            Meeting::Empty => Ok(false),
            Meeting::One(value) => {
                self.bind(free, place, Value::Int(value))?;
                Ok(true)
            }
            Meeting::Many(narrowed) => {
                self.give(free, place, narrowed)?;
                Ok(true)
            }
        }
    }
}
