// Document 01, "The part we model": the settings, and what they say of PCI addresses and of the memories lent.
#![tactic(auto)]

ghost use Rattle.std.specs.Prelude.{◌≡◌, List, ℕ, ◌-◌, ◌≤◌, length};
ghost use Rattle.model.specs.Settings.{zero_settings, settings_pass, lengths_fit, in_abort_range, outside_window};
ghost use Rattle.settings.specs.Bridge.{settings_as};

// "Window base, window length, and a target-abort range given as two offsets lo and hi (lo included, hi not)."
#[derive(Clone, Copy, Default)]
pub struct Settings {
    pub base: u32,
    pub length: u32,
    pub lo: u32,
    pub hi: u32,
}

impl Settings {
    // "All-zero settings."
    pub fn zero() -> Settings
        ensures { settings_as result ≡ zero_settings }
    {
        Settings::default()
    }

    // "They pass if all are multiples of 4, length is at most 65,536, base + length is at most 4,294,967,296, and lo <= hi <= length."
    pub fn pass(self) -> bool
        ensures { result ≡ settings_pass (settings_as self) }
    {
        let end = self.base as u64 + self.length as u64;
        (self.base % 4 == 0)
            & (self.length % 4 == 0)
            & (self.lo % 4 == 0)
            & (self.hi % 4 == 0)
            & (self.length <= 65536)
            & (end <= access::PCI_LENGTH)
            & (self.lo <= self.hi)
            & (self.hi <= self.length)
    }

    // The contrary of "shared memory not 16,384 bytes, or window not of the set length", by the memories' lengths.
    pub fn lengths_fit(self, shared: usize, window: usize) -> bool
        ensures { (m w : List ℕ) → shared ≡ length m → window ≡ length w → result ≡ lengths_fit (settings_as self) m w }
    {
        (shared as u64 == access::SHARED_LENGTH) & (window == self.length as usize)
    }

    // A PCI address that is no multiple of 4, or from which so many bytes leave the window.
    pub fn outside_window(self, at: u32, count: u32) -> bool
        ensures { result ≡ outside_window (settings_as self) at count }
    {
        let base = self.base as u64;
        let length = self.length as u64;
        access::misplaced(at, count, base, base + length)
    }

    // The place in the window of a PCI address that lies in it.
    pub fn offset(self, at: u32) -> usize
        requires { self.base ≤ at }
        ensures { result ≡ at - self.base }
    {
        (at - self.base) as usize
    }

    // "Lo included, hi not."
    pub fn in_abort_range(self, at: u32) -> bool
        ensures { result ≡ in_abort_range (settings_as self) at }
    {
        let pci = at as u64;
        let base = self.base as u64;
        let from = base + self.lo as u64;
        let to = base + self.hi as u64;
        (from <= pci) & (pci < to)
    }
}
