//! A shape that keeps the rules.

ghost use Rattle.std.specs.Prelude.{◌≡◌};
ghost use Rattle.ecd_keyorder.specs.declared.Order.TheVariants.{Bytewise};
ghost use Rattle.ecd_shape_rules.specs.Demands.{KeepsRules};
ghost use Rattle.ecd_judged.specs.Laws.{GivesOneValue};

use ecd_core::Shape;
use ecd_keyorder::Order;
use std::marker::Model;

/// A shape that breaks none of the rules A1 to M5, and the order in which the keys of its maps stand. Contracts see the two.
#[derive(Drop)]
pub struct Judged {
    shape: Shape,
    order: Order,
}

impl Model for Judged {
    ghost use Rattle.ecd_judged.specs.Judging.{Judging, judging_code};

    ghost Value = { Judging };

    ghost coded = { judging_code };

    ghost use Rattle.ecd_shape_rules.specs.Demands.{KeepsRules};

    ghost view = { λ j. record { shape = j.shape; order = j.order } };

    ghost invariant = { λ j. KeepsRules j.shape };
}

impl Judged {
    /// A shape that keeps the rules, with the bytewise order of keys. It takes no memory.
    pub fn new(shape: Shape) -> Judged
        requires { KeepsRules shape }
        ensures shape { result.shape ≡ shape }
        ensures order { result.order ≡ Bytewise }
    {
        Judged {
            shape,
            order: Order::Bytewise,
        }
    }

    /// The shape. It keeps the rules, and gives each item at most one value.
    pub fn shape(&self) -> &Shape
        ensures same { result.now ≡ self.now.shape }
        ensures keeps { KeepsRules result.now }
        ensures one { GivesOneValue result.now }
    {
        &self.shape
    }

    /// The order of the keys of its maps.
    pub fn order(&self) -> Order
        ensures { result ≡ self.now.order }
    {
        self.order
    }

    /// The same shape, with another order of keys. It takes no memory.
    pub fn with_order(self, order: Order) -> Judged
        ensures shape { result.shape ≡ self.shape }
        ensures order { result.order ≡ order }
    {
        let Judged { shape, .. } = self;
        Judged { shape, order }
    }
}
