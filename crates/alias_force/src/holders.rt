//! What holds leaves for names.

ghost use Rattle.std.specs.Prelude.{◌≡◌, Some, IsSome};
ghost use Rattle.std.specs.Option.{option_copied};
ghost use Rattle.drag_along.specs.declared.leaves.Leaf.{Leaf};
ghost use Rattle.apl_model.specs.Environment.{Environment, look_up, set_name};

use apl_base::Name;
use drag_along::Leaf;

/// Who keeps what names are bound to.
pub trait Holder {
    // The globals and the frames, the innermost first, each a list of names that are bound to a leaf or unset.
    ghost names: { Self → Environment Leaf };

    /// The leaf that a look-up finds: `None` exactly where the name is unset there.
    fn leaf_of(&self, name: &Name) -> Option<&Leaf>
        ensures { option_copied result ≡ look_up (names self.now) name.now };

    /// Binds a name that is set to another leaf, where the look-up finds it, and gives back the old one. All other
    /// declarations of the name stay, and so do all other names.
    fn give(&mut self, name: &Name, leaf: Leaf) -> Leaf
        requires { IsSome (look_up (names self.old) name.now) }
        ensures old { look_up (names self.old) name.now ≡ Some result }
        ensures put { names self.new ≡ set_name (names self.old) name.now leaf };
}
