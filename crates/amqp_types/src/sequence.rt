//! The values in a list, a map or an array, which were read with it.

ghost use Rattle.std.specs.Prelude.{◌<◌, ◌^◌, IsTrue, None};
ghost use Rattle.amqp_types.specs.Items.{are_items};
ghost use Rattle.amqp_types.specs.Form.{kept_form};

use crate::constructor::{Constructor, Form};
use crate::known::first_of;
use crate::simple::{
    Simple, boolean_in_front, boolean_item, simple_item, uint_in_front, uint_item,
};
use crate::value::Value;

/// Values that lie one after the other.
#[derive(Clone, Copy, Debug)]
pub(crate) struct Sequence<'a> {
    /// How many values there are.
    pub(crate) count: u32,
    /// Their octets.
    pub(crate) body: &'a [u8],
    ghost filled: { IsTrue (are_items None count body.now) },
}

impl<'a> Sequence<'a> {
    ghost use Rattle.std.specs.Prelude.{◌≡◌, [], length};
    ghost use Rattle.amqp_types.specs.Items.{seen_in};
    ghost use Rattle.amqp_types.specs.Grammar.{AreValuesOf};
    ghost use Rattle.amqp_types.specs.View.{items_left};

    /// No values.
    #[tactic(auto, using(crate::proofs::Held::no_values))]
    pub(crate) fn empty() -> Sequence<'a>
        ensures none { result.count ≡ 0 }
        ensures nothing { result.body.now ≡ [] }
    {
        Sequence {
            count: 0,
            body: &[],
        }
    }

    /// The values, first to last.
    pub(crate) fn items(&self) -> Items<'a>
        ensures same { items_left result ≡ seen_in self.now.count self.now.body.now }
        ensures few { length (items_left result) < 2 ^ 32 }
        ensures whole { AreValuesOf self.now.count self.now.body.now (items_left result) }
    {
        Items {
            form: None,
            left: self.count,
            rest: self.body,
        }
    }
}

/// The elements of an array, which share their constructor.
#[derive(Clone, Copy, Debug)]
pub(crate) struct Array<'a> {
    /// The elements' constructor. An array without elements may have none.
    pub(crate) form: Option<Form<'a>>,
    /// How many elements there are.
    pub(crate) count: u32,
    /// The octets of their data.
    pub(crate) body: &'a [u8],
    ghost few: { count < 2 ^ 32 },
    ghost filled: { IsTrue (are_items (kept_form form) count body.now) },
}

impl<'a> Array<'a> {
    ghost use Rattle.std.specs.Prelude.{◌≡◌, [], length, Some};
    ghost use Rattle.amqp_types.specs.Part as parts;
    ghost use Rattle.amqp_types.specs.Form.{constructor_of};
    ghost use Rattle.amqp_types.specs.Items.{items_in, constructor_in};
    ghost use Rattle.amqp_types.specs.Grammar.{AreOf, IsItem};
    ghost use Rattle.flow_counts.specs.declared.profile.TheConstants.{MAX_DEPTH};
    ghost use Rattle.amqp_types.specs.View.{array_part, items_left};

    /// No elements, and no constructor.
    #[tactic(auto, using(crate::proofs::Held::no_values))]
    pub(crate) fn empty() -> Array<'a>
        ensures { array_part result ≡ parts.Array None 0 [] }
    {
        Array {
            form: None,
            count: 0,
            body: &[],
        }
    }

    /// So many elements, whose constructor was read.
    pub(crate) fn of(constructor: Constructor<'a>, count: u32, body: &'a [u8]) -> Array<'a>
        requires kept { constructor_in constructor.octets.now ≡ Some (constructor_of constructor) }
        requires filled { IsTrue (are_items (Some (constructor_of constructor)) count body.now) }
        ensures { array_part result ≡ parts.Array (Some (constructor_of constructor.entry)) count body.entry.now }
    {
        let form = Form {
            octets: constructor.octets,
        };
        Array {
            form: Some(form),
            count,
            body,
        }
    }

    /// The elements, first to last.
    pub(crate) fn items(&self) -> Items<'a>
        ensures same { items_left result ≡ items_in (kept_form self.now.form) self.now.count self.now.body.now }
        ensures few { length (items_left result) < 2 ^ 32 }
        ensures whole { AreOf (IsItem MAX_DEPTH (kept_form self.now.form)) self.now.count self.now.body.now (items_left result) }
    {
        Items {
            form: self.form,
            left: self.count,
            rest: self.body,
        }
    }
}

/// The values of a list, a map or an array, first to last.
#[derive(Clone, Copy, Debug)]
pub struct Items<'a> {
    /// The constructor of an array's elements, which it was read with.
    pub(crate) form: Option<Form<'a>>,
    /// How many values are left.
    pub(crate) left: u32,
    /// Their octets.
    pub(crate) rest: &'a [u8],
    ghost filled: { IsTrue (are_items (kept_form form) left rest.now) },
}

impl<'a> Items<'a> {
    ghost use Rattle.std.specs.Prelude.{◌≡◌, length};
    ghost use Rattle.amqp_types.specs.Simple.{simple_first, behind_simple, uint_said, boolean_said, first_wanted, behind_wanted};
    ghost use Rattle.amqp_types.specs.View.{items_left};

    /// How many values are left.
    pub fn len(&self) -> usize
        ensures { result ≡ length (items_left self.now) }
    {
        self.left as usize
    }

    /// Takes the next value, where it is null, a boolean or a number without a sign, and gives what it says. `None`
    /// where it is another one, which is not taken, and behind the last.
    #[tactic(auto, unfolding(crate::specs::Items::items_in))]
    #[inline(always)]
    pub fn next_simple(&mut self) -> Option<Simple>
        ensures value { result ≡ simple_first (items_left self.old) }
        ensures left { items_left self.new ≡ behind_simple (items_left self.old) }
    {
        let Some(left) = self.left.checked_sub(1) else {
            return None;
        };
        match simple_item(self.form, self.rest) {
            Some((simple, rest)) => {
                *self = Items {
                    form: self.form,
                    left,
                    rest,
                };
                Some(simple)
            }
            None => None,
        }
    }

    /// Takes the next value, where it is null or an uint, and gives its number: `Some(None)` for null. `None` where it is
    /// another one, which is not taken, and behind the last.
    #[inline(always)]
    pub fn next_uint(&mut self) -> Option<Option<u32>>
        ensures value { result ≡ first_wanted uint_said (items_left self.old) }
        ensures left { items_left self.new ≡ behind_wanted uint_said (items_left self.old) }
    {
        if self.left != 0 {
            if let Some((value, rest)) = uint_in_front(self.form, self.rest) {
                *self = Items {
                    form: self.form,
                    left: self.left - 1,
                    rest,
                };
                return Some(value);
            }
        }
        self.uint_of_any()
    }

    /// As `next_uint`, of every value: of an array's element too, whose constructor does not stand in front of it, while
    /// `next_uint` itself looks for the first octet of a null or an uint there. `None` where it is another value, which is not
    /// taken, and behind the last.
    #[inline(never)]
    fn uint_of_any(&mut self) -> Option<Option<u32>>
        ensures value { result ≡ first_wanted uint_said (items_left self.old) }
        ensures left { items_left self.new ≡ behind_wanted uint_said (items_left self.old) }
    {
        if self.left == 0 {
            return None;
        }
        let Some((value, rest)) = uint_item(self.form, self.rest) else {
            return None;
        };
        *self = Items {
            form: self.form,
            left: self.left - 1,
            rest,
        };
        Some(value)
    }

    /// Takes the next value, where it is null or a boolean, and gives it: `Some(None)` for null. `None` where it is
    /// another one, which is not taken, and behind the last.
    #[inline(always)]
    pub fn next_bool(&mut self) -> Option<Option<bool>>
        ensures value { result ≡ first_wanted boolean_said (items_left self.old) }
        ensures left { items_left self.new ≡ behind_wanted boolean_said (items_left self.old) }
    {
        if self.left != 0 {
            if let Some((value, rest)) = boolean_in_front(self.form, self.rest) {
                *self = Items {
                    form: self.form,
                    left: self.left - 1,
                    rest,
                };
                return Some(value);
            }
        }
        self.bool_of_any()
    }

    /// As `next_bool`, of every value: of an array's element too, whose constructor does not stand in front of it, while
    /// `next_bool` itself looks for the first octet of a null or a boolean there. `None` where it is another value, which is not
    /// taken, and behind the last.
    #[inline(never)]
    fn bool_of_any(&mut self) -> Option<Option<bool>>
        ensures value { result ≡ first_wanted boolean_said (items_left self.old) }
        ensures left { items_left self.new ≡ behind_wanted boolean_said (items_left self.old) }
    {
        if self.left == 0 {
            return None;
        }
        let Some((value, rest)) = boolean_item(self.form, self.rest) else {
            return None;
        };
        *self = Items {
            form: self.form,
            left: self.left - 1,
            rest,
        };
        Some(value)
    }
}

impl<'a> Iterator for Items<'a> {
    ghost use Rattle.std.specs.Iterator.{YieldsFirstBy, item_count};
    ghost use Rattle.amqp_types.specs.View.{view, items_left};

    type Item = Value<'a>;

    ghost next_gives = { YieldsFirstBy view items_left };

    ghost remaining = { item_count items_left };

    #[tactic(auto, unfolding(crate::specs::Items::items_in))]
    #[inline(always)]
    fn next(&mut self) -> Option<Value<'a>> {
        if self.left == 0 {
            return None;
        }
        let (value, rest) = first_of(self.form, self.left, self.rest);
        *self = Items {
            form: self.form,
            left: self.left - 1,
            rest,
        };
        Some(value)
    }
}
