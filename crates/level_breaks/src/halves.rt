// Parts of two curves, compared by halves.
ghost use Rattle.std.specs.Prelude.{◌↔◌, ◌≡◌, ◌+◌, ◌<◌, ◌≤◌, IsTrue};
ghost use Rattle.near_pairs.specs.Boxes.{box_of};
ghost use Rattle.level_breaks.specs.Stretches.{AreHalves, IsPlaced, IsStretch, SomePair};

use near_pairs::Reach;

/// Parts of a curve, from one number to before another, and a box that holds them.
#[derive(Clone, Copy)]
pub struct Stretch {
    pub from: usize,
    pub to: usize,
    pub reach: Reach,
}

/// The numbered parts of two curves, of which pairs are sought.
pub trait PartTest {
    ghost use Rattle.std.specs.Prelude.{ℕ, ◌<◌, ◌≤◌, ◌↔◌, IsTrue};
    ghost use Rattle.plane.specs.Forms.Boxes.{Box};
    ghost use Rattle.near_pairs.specs.Boxes.{ShareAPlace, box_of};
    ghost use Rattle.level_breaks.specs.Stretches.{IsPlaced, IsStretch, SomeOf};

    /// Whether parts can be tested.
    ghost can_test: { Self → Type 0 };

    /// How many parts the first and the second curve have.
    ghost firsts: { Self → ℕ };

    ghost seconds: { Self → ℕ };

    /// Whether the box holds the part of the number.
    ghost holds_first: { Self → Box → ℕ → Type 0 };

    ghost holds_second: { Self → Box → ℕ → Type 0 };

    /// Whether the part of the first curve and that of the second are sought.
    ghost sought: { Self → ℕ → ℕ → Type 0 };

    /// Boxes that hold two parts which are sought share a place.
    fn boxes_share(&self)
        requires { can_test self.now }
        ensures { (i j : ℕ) (a b : Box) → i < firsts self.now → j < seconds self.now
            → sought self.now i j → holds_first self.now a i → holds_second self.now b j
            → ShareAPlace a b };

    fn first_reach(&self, from: usize, to: usize) -> Reach
        requires can { can_test self.now }
        requires some { from < to }
        requires there { to ≤ firsts self.now }
        ensures { IsPlaced (holds_first self.now (box_of result)) from to };

    fn second_reach(&self, from: usize, to: usize) -> Reach
        requires can { can_test self.now }
        requires some { from < to }
        requires there { to ≤ seconds self.now }
        ensures { IsPlaced (holds_second self.now (box_of result)) from to };

    /// Whether the part of the first curve and some part of the stretch are sought.
    fn is_sought(&self, number: usize, stretch: &Stretch) -> bool
        requires can { can_test self.now }
        requires there { number < firsts self.now }
        requires stretch { IsStretch (holds_second self.now) (seconds self.now) stretch.now }
        ensures { IsTrue result
            ↔ SomeOf (sought self.now number) stretch.now.from stretch.now.to };
}

// So many parts are compared one by one.
const FEW: usize = 8;

/// Whether a part of the one stretch and a part of the other are sought. Stretches whose boxes
/// share no place are told apart by these alone, others by the halves of the longer one.
pub fn some_sought<T: PartTest>(test: &T, first: &Stretch, second: &Stretch) -> bool
    requires can { T.can_test test.now }
    requires first { IsStretch (T.holds_first test.now) (T.firsts test.now) first.now }
    requires second { IsStretch (T.holds_second test.now) (T.seconds test.now) second.now }
    ensures { IsTrue result ↔ SomePair (T.sought test.now) first.now second.now }
{
    test.boxes_share();
    if !first.reach.meets(&second.reach) {
        return false;
    }
    let longest = size(first).max(size(second));
    if longest <= FEW {
        return each_with_each(test, first, second);
    }
    if size(first) == longest {
        let (early, late) = first_halves(test, first);
        some_sought(test, &early, second) || some_sought(test, &late, second)
    } else {
        let (early, late) = second_halves(test, second);
        some_sought(test, first, &early) || some_sought(test, first, &late)
    }
}

fn size(stretch: &Stretch) -> usize
    requires { stretch.now.from ≤ stretch.now.to }
    ensures { result + stretch.now.from ≡ stretch.now.to }
{
    stretch.to - stretch.from
}

fn each_with_each<T: PartTest>(test: &T, first: &Stretch, second: &Stretch) -> bool
    requires can { T.can_test test.now }
    requires first { IsStretch (T.holds_first test.now) (T.firsts test.now) first.now }
    requires second { IsStretch (T.holds_second test.now) (T.seconds test.now) second.now }
    ensures { IsTrue result ↔ SomePair (T.sought test.now) first.now second.now }
{
    for number in first.from..first.to {
        if test.is_sought(number, second) {
            return true;
        }
    }
    false
}

fn first_halves<T: PartTest>(test: &T, stretch: &Stretch) -> (Stretch, Stretch)
    requires can { T.can_test test.now }
    requires stretch { IsStretch (T.holds_first test.now) (T.firsts test.now) stretch.now }
    requires two { stretch.now.from + 2 ≤ stretch.now.to }
    ensures halves { AreHalves stretch.now result.0 result.1 }
    ensures early { IsStretch (T.holds_first test.now) (T.firsts test.now) result.0 }
    ensures late { IsStretch (T.holds_first test.now) (T.firsts test.now) result.1 }
{
    let middle = middle(stretch);
    let early = Stretch {
        from: stretch.from,
        to: middle,
        reach: test.first_reach(stretch.from, middle),
    };
    let late = Stretch {
        from: middle,
        to: stretch.to,
        reach: test.first_reach(middle, stretch.to),
    };
    (early, late)
}

fn second_halves<T: PartTest>(test: &T, stretch: &Stretch) -> (Stretch, Stretch)
    requires can { T.can_test test.now }
    requires stretch { IsStretch (T.holds_second test.now) (T.seconds test.now) stretch.now }
    requires two { stretch.now.from + 2 ≤ stretch.now.to }
    ensures halves { AreHalves stretch.now result.0 result.1 }
    ensures early { IsStretch (T.holds_second test.now) (T.seconds test.now) result.0 }
    ensures late { IsStretch (T.holds_second test.now) (T.seconds test.now) result.1 }
{
    let middle = middle(stretch);
    let early = Stretch {
        from: stretch.from,
        to: middle,
        reach: test.second_reach(stretch.from, middle),
    };
    let late = Stretch {
        from: middle,
        to: stretch.to,
        reach: test.second_reach(middle, stretch.to),
    };
    (early, late)
}

fn middle(stretch: &Stretch) -> usize
    requires { stretch.now.from + 2 ≤ stretch.now.to }
    ensures after { stretch.now.from < result }
    ensures before { result < stretch.now.to }
{
    stretch.from + (stretch.to - stretch.from) / 2
}
