// A numbered slot: what it holds, and the highest sequence number that it accepted.
ghost use Rattle.pegs.specs.Slots.{Updated};

// Why an update comes too late: its sequence number is lower than the remembered one, or equal to it.
#[derive(Clone, Copy)]
pub enum Late {
    Lower,
    Equal,
}

// `last` begins at 0, and stays when what is held is taken away.
// stays: 0 and no Option before the first edit, since every sequence number is above it, and one test serves the first edit and the later ones
#[derive(Clone, Copy)]
pub struct Slot<T> {
    pub last: u32,
    pub held: Option<T>,
}

impl<T: Drop> Slot<T> {
    // Holds what came with a higher sequence number; anything later than that stays out.
    pub fn update(&mut self, sequence: u32, held: Option<T>) -> Result<(), Late>
        ensures { Updated self.old sequence held self.new result }
    {
        if sequence < self.last {
            return Err(Late::Lower);
        }
        if sequence == self.last {
            return Err(Late::Equal);
        }
        self.last = sequence;
        self.held = held;
        Ok(())
    }
}
