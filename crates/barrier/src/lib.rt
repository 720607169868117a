// A model of the barrier unit: its registers, and how often all have come.
#![tactic(auto)]

pub mod sets;

ghost use Rattle.std.specs.Prelude.{◌≡◌};
ghost use Rattle.base.specs.Replies.{accepted};
ghost use Rattle.base.specs.Verdicts.{reply_of, reply_of_check};
ghost use Rattle.barrier.specs.Registers.{all_zero, enlisted, arriving, acknowledged, enabled, after_write, register, addressed, is_up};

use base::{Kind, Refusal};
use sets::{bit_0, high, low, set_of};

// The registers of a unit end at this address.
pub const LAST: u32 = 5;

// The member set and the arrived set, bit 0 for worker 0; bit 0 of status and of enable; the count of releases.
#[derive(Clone, Copy, Default)]
pub struct Barrier {
    pub members: u16,
    pub arrived: u16,
    pub status: bool,
    pub enable: bool,
    pub releases: u32,
}

// There is no such register.
const NO_REGISTER: Refusal = Refusal {
    kind: Kind::NoRegister,
    place: 0,
};

impl Barrier {
    // An all-zero unit.
    pub fn new() -> Self
        ensures { result ≡ all_zero }
    {
        Self::default()
    }

    // The member set is set, and nobody has arrived.
    fn joining(self, members: u16) -> Self
        ensures { result ≡ enlisted self members }
    {
        Self {
            members,
            arrived: 0,
            ..self
        }
    }

    // The named workers that are members arrive.
    fn arriving(self, named: u16) -> Self
        ensures { result ≡ arriving self named }
    {
        let members = self.members;
        let arrived = self.arrived | (named & members);
        if members != 0 && arrived & members == members {
            return Self {
                arrived: 0,
                status: true,
                releases: self.releases.wrapping_add(1),
                ..self
            };
        }
        Self { arrived, ..self }
    }

    // Bit 0 of status is cleared, if the byte written to it has it.
    fn acknowledging(self, clears: bool) -> Self
        ensures { result ≡ acknowledged self clears }
    {
        Self {
            status: self.status && !clears,
            ..self
        }
    }

    // Bit 0 of enable is set to that of the byte written to it.
    fn enabling(self, enable: bool) -> Self
        ensures { result ≡ enabled self enable }
    {
        Self { enable, ..self }
    }

    // The unit after a write.
    #[tactic(auto, unfolding(crate::specs::Registers::after_write))]
    fn after(self, address: u32, byte: u8) -> Self
        ensures { result ≡ after_write self address byte }
    {
        let members = self.members;
        match address {
            0 => self.joining(set_of(byte, high(members))),
            1 => self.joining(set_of(low(members), byte)),
            2 => self.arriving(set_of(byte, 0)),
            3 => self.arriving(set_of(0, byte)),
            4 => self.acknowledging(bit_0(byte)),
            5 => self.enabling(bit_0(byte)),
            _ => self,
        }
    }

    // What a register reads.
    #[tactic(auto, unfolding(crate::specs::Registers::register))]
    fn register(self, address: u32) -> u8
        ensures { result ≡ register self address }
    {
        let members = self.members;
        let arrived = self.arrived;
        match address {
            0 => low(members),
            1 => high(members),
            2 => low(arrived),
            3 => high(arrived),
            4 => u8::from(self.status),
            _ => u8::from(self.enable),
        }
    }

    // A byte is written to a register. Where there is none, the unit stays as it was.
    #[tactic(auto, unfolding(base::specs::Replies::in_turn, crate::specs::Registers::addressed, crate::specs::Registers::after_write))]
    pub fn write(&mut self, address: u32, byte: u8) -> Result<(), Refusal>
        ensures { (reply_of_check result ≡ addressed address (accepted 0)) × (self.new ≡ after_write self.old address byte) }
    {
        if LAST < address {
            return Err(NO_REGISTER);
        }
        *self = self.after(address, byte);
        Ok(())
    }

    // A register is read: accepted with its byte.
    #[tactic(auto, unfolding(base::specs::Replies::in_turn, crate::specs::Registers::addressed))]
    pub fn read(self, address: u32) -> Result<u32, Refusal>
        ensures { reply_of result ≡ addressed address (accepted (register self address)) }
    {
        if LAST < address {
            return Err(NO_REGISTER);
        }
        Ok(u32::from(self.register(address)))
    }

    // Whether the interrupt line is up.
    pub fn line(self) -> bool
        ensures { result ≡ is_up self }
    {
        self.status && self.enable
    }
}
