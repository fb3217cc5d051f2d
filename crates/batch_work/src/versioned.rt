//! What do both kinds of windows have in common?

ghost use Rattle.std.specs.Prelude.{◌≡◌, ◌≤◌, ◌<◌, IfSome};
ghost use Rattle.std.specs.Option.{option_copied};
ghost use Rattle.batch_work.specs.Windows.{Counted, Window, back_from, version_at, versions};

use version_book::Version;

/// The last versions of one history: the newest one, and older ones whose numbers come right before it. A work begins on them. No
/// call allocates memory. In contracts they are the record `window`.
pub trait Versioned {
    ghost use Rattle.batch_work.specs.Windows.{Window};

    ghost window: { Self → Window };

    /// Returns the newest version.
    fn newest(&self) -> &Version
        ensures newest { result.now ≡ (window self.now).newest }
        ensures counted { Counted (versions (window self.now)) };

    /// Returns the version this many steps before the newest one, if it is there.
    fn back(&self, steps: u64) -> Option<&Version>
        requires steps { 0 < steps }
        ensures { option_copied result ≡ back_from steps (window self.now).older };

    /// Returns the version with this number, if it is there.
    final fn book(&self, number: u64) -> Option<&Version>
        ensures found { option_copied result ≡ version_at number (window self.now) }
        ensures earlier { IfSome result (λ version. (version.now.domain ≡ (window self.now).newest.domain) × (version.now.number ≤ (window self.now).newest.number)) }
    {
        let newest = self.newest();
        let place = newest.number();
        if number < place {
            self.back(place - number)
        } else if number == place {
            Some(newest)
        } else {
            None
        }
    }
}
