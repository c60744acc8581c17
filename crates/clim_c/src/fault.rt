use opening::Fault;

/// The first rule that some bytes break, and where.
#[repr(C)]
#[derive(Clone, Copy)]
pub struct ClimFault {
    /// The offset in the caller's bytes.
    pub offset: u64,
    /// The number of the rule.
    pub code: u16,
    /// The layer of the rule: the hundreds of its number.
    pub layer: u8,
}

impl ClimFault {
    ghost use Rattle.std.specs.Prelude.{◌≡◌, false};
    ghost use Rattle.clim_c.specs.Faults.{fault_of};

    /// Writes a fault for a C caller, and returns `false`.
    pub(crate) fn report(&mut self, found: Fault) -> bool
        ensures written { fault_of self.new ≡ found }
        ensures unmet { result ≡ false }
    {
        self.offset = found.offset;
        self.code = found.code;
        self.layer = found.layer;
        false
    }
}
