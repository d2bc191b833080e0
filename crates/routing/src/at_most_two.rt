// At most two values in a given order, as the gateways that a gateway hears from or tells.
ghost use Rattle.std.specs.Prelude.{◌≡◌, ◌≤◌, length};
ghost use Rattle.std.specs.List.{slice_get, All, AllZip};

#[derive(Clone, Copy, PartialEq, Eq)]
pub enum AtMostTwo<T> {
    None,
    One(T),
    Two(T, T),
}

impl<T: Copy> AtMostTwo<T> {
    ghost use Rattle.routing.specs.AtMostTwo.{listed};

    // How many there are.
    pub fn len(self) -> usize
        ensures { (result ≡ length (listed self)) × (result ≤ 2) }
    {
        match self {
            AtMostTwo::None => 0,
            AtMostTwo::One(_) => 1,
            AtMostTwo::Two(_, _) => 2,
        }
    }

    // The one at an index.
    pub fn get(self, index: usize) -> Option<T>
        ensures { result ≡ slice_get (listed self) index }
    {
        match (self, index) {
            (AtMostTwo::One(first) | AtMostTwo::Two(first, _), 0) => Some(first),
            (AtMostTwo::Two(_, second), 1) => Some(second),
            _ => None,
        }
    }

    // What a function makes of each.
    pub fn map<U, F: Fn(T) -> U>(self, f: F) -> AtMostTwo<U>
        requires { All (F.pre f) (listed self) }
        ensures { AllZip (F.post f) (listed self) (listed result) }
    {
        match self {
            AtMostTwo::None => AtMostTwo::None,
            AtMostTwo::One(first) => AtMostTwo::One(f(first)),
            AtMostTwo::Two(first, second) => AtMostTwo::Two(f(first), f(second)),
        }
    }
}
