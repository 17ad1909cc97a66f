// Document 01, "FIFOs and flags": the four FIFOs by value.
#![tactic(auto)]

ghost use Rattle.std.specs.Prelude.{◌≡◌, [], ◌∷◌, ◌++◌, map, ◌<◌, ◌≤◌, length, drop, eqb};
ghost use Rattle.model.specs.Fifos.{fresh_fifos, fifos_sound, entries_of};
ghost use Rattle.model.specs.Why.{places};
ghost use Rattle.fifos.specs.Bridge.{entries_as, fifos_as, put_on, put_as, taken_off, taken_as};

// "Each FIFO holds 32 numbers of 32 bits": the first `count` entries, oldest first. An array with its count, as the record is copied by value and there is
// no heap; a record handed in may have a count above 32, which is not sound.
#[derive(Clone, Copy)]
pub struct Fifo {
    pub entries: [u32; 32],
    pub count: u32,
}

#[derive(Clone, Copy)]
pub struct Fifos {
    pub each: [Fifo; 4],
}

// What a take gives where there is an entry: the FIFOs after it, and the oldest entry.
#[derive(Clone, Copy)]
pub struct Taken {
    pub fifos: Fifos,
    pub entry: u32,
}

pub const ROOM: u32 = 32;

// ONE FIFO

impl Fifo {
    pub fn empty() -> Fifo
        ensures { entries_as result ≡ [] }
    {
        Fifo {
            entries: [0; 32],
            count: 0,
        }
    }

    pub fn with(mut self, entry: u32) -> Fifo
        requires { self.count < 32 }
        ensures { entries_as result ≡ entries_as self ++ (entry ∷ []) }
    {
        self.entries[self.count as usize] = entry;
        self.count += 1;
        self
    }

    fn oldest(self) -> u32
        requires { 0 < self.count }
        ensures { entries_as self ≡ result ∷ drop 1 (entries_as self) }
    {
        self.entries[0]
    }

    // The entries moved down by one place, and 0 in the last.
    pub fn rest(mut self) -> Fifo
        requires { 0 < self.count }
        ensures { entries_as result ≡ drop 1 (entries_as self) }
    {
        self.entries.copy_within(1.., 0);
        self.entries[31] = 0;
        self.count -= 1;
        self
    }

    // Those held, oldest first; places that are not used are 0.
    pub fn places(self) -> [u32; 32]
        requires { self.count ≤ 32 }
        ensures { result ≡ places (entries_as self) }
    {
        let mut entries = self.entries;
        entries[self.count as usize..].fill(0);
        entries
    }
}

// THE FOUR

impl Fifos {
    pub fn fresh() -> Fifos
        ensures { fifos_as result ≡ fresh_fifos }
    {
        Fifos {
            each: [Fifo::empty(); 4],
        }
    }

    // "Each FIFO holds at most 32 entries." There are four, since the array has so many.
    pub fn sound(self) -> bool
        ensures { result ≡ fifos_sound (fifos_as self) }
    {
        self.each.iter().all(|fifo| fifo.count <= ROOM)
    }

    pub fn is_empty(self, i: usize) -> bool
        requires { i < 4 }
        ensures { result ≡ eqb (length (entries_of (fifos_as self) i)) 0 }
    {
        self.held(i) == 0
    }

    // How many entries one holds.
    pub fn held(self, i: usize) -> u32
        requires { i < 4 }
        ensures { result ≡ length (entries_of (fifos_as self) i) }
    {
        self.each[i].count
    }

    // The entries that one holds.
    pub fn entries(self, i: usize) -> [u32; 32]
        requires i_bound { i < 4 }
        requires i_len_bound { length (entries_of (fifos_as self) i) ≤ 32 }
        ensures { result ≡ places (entries_of (fifos_as self) i) }
    {
        self.each[i].places()
    }

    // "A put on a full one keeps it as it is" and "loses the entry": then it gives none. The array is a local: indexed inside the record it would
    // keep the whole record in memory.
    pub fn put(self, i: usize, entry: u32) -> Option<Fifos>
        requires { i < 4 }
        ensures { put_as i self result ≡ put_on i entry (fifos_as self) }
    {
        let mut each = self.each;
        let fifo = each[i];
        if fifo.count < ROOM {
            each[i] = fifo.with(entry);
            Some(Fifos { each })
        } else {
            None
        }
    }

    // "Entries come out once each, in order." An empty one gives none.
    pub fn take(self, i: usize) -> Option<Taken>
        requires { i < 4 }
        ensures { taken_as i self result ≡ taken_off i (fifos_as self) (entries_of (fifos_as self) i) }
    {
        let mut each = self.each;
        let fifo = each[i];
        if fifo.count == 0 {
            return None;
        }
        each[i] = fifo.rest();
        let entry = fifo.oldest();
        Some(Taken {
            fifos: Fifos { each },
            entry,
        })
    }
}
