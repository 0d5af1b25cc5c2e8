//! The values of a counter, as an answer carries them behind the counter's type.

ghost use Rattle.std.specs.Prelude.{◌≡◌, ◌∷◌};
ghost use Rattle.protocol.specs.Counting.{Fit, counters_bytes};
ghost use Rattle.numbering.specs.Exactly.{Exactly};
ghost use Rattle.numbering.specs.Numbered.{energy_number};

use numbering::Energy;

#[derive(Clone, Copy, Debug, PartialEq, Eq, Hash)]
pub struct Counters {
    /// One byte as the meter gives it: the digit codes 2 and 3 in bits 5 and 4 stay apart.
    pub config: u8,
    pub voltage_ratio: u16,
    pub current_ratio: u16,
    pub full: u32,
    pub in_use: u32,
    pub tariffs: [u32; 4],
}

impl Counters {
    /// The values in the 29 bytes behind a counter's type.
    #[tactic(auto, using(crate::proofs::Rejoining::length_counters))]
    pub fn read(bytes: &[u8]) -> Option<Counters>
        ensures { Exactly (λ x. (counters_bytes x ≡ bytes.now) × Fit x) result }
    {
        let (config, rest) = bytes.split_first()?;
        let (voltage_ratio, rest) = rest.split_first_chunk()?;
        let (current_ratio, rest) = rest.split_first_chunk()?;
        let (full, rest) = rest.split_first_chunk()?;
        let (in_use, rest) = rest.split_first_chunk()?;
        let ([first, second, third, fourth], []) = rest.as_chunks() else {
            return None;
        };
        Some(Counters {
            config: *config,
            voltage_ratio: u16::from_le_bytes(*voltage_ratio),
            current_ratio: u16::from_le_bytes(*current_ratio),
            full: u32::from_le_bytes(*full),
            in_use: u32::from_le_bytes(*in_use),
            tariffs: [
                u32::from_le_bytes(*first),
                u32::from_le_bytes(*second),
                u32::from_le_bytes(*third),
                u32::from_le_bytes(*fourth),
            ],
        })
    }

    /// The data of an answer: the counter's type and its values.
    pub fn data(self, energy: Energy) -> [u8; 30]
        ensures { result ≡ energy_number energy ∷ counters_bytes self }
    {
        // By places: the library joins no arrays of several sizes, and a list that grows would be turned back into an array that it just fills.
        let mut data = [0; 30];
        data[0] = u8::from(energy);
        data[1] = self.config;
        data[2..4].copy_from_slice(&self.voltage_ratio.to_le_bytes());
        data[4..6].copy_from_slice(&self.current_ratio.to_le_bytes());
        data[6..10].copy_from_slice(&self.full.to_le_bytes());
        data[10..14].copy_from_slice(&self.in_use.to_le_bytes());
        data[14..].copy_from_slice(self.tariffs.map(u32::to_le_bytes).as_flattened());
        data
    }
}
