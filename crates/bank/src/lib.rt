// A bank, a dump of 32 packed patches, its channel, and a slot in it. Added by us: no Rust file. Each entry is what
// specs/Bank says, for sound and damaged dumps alike. A slot above 31 is refused with 2, and the rest as any dump is.
#![tactic(auto)]

ghost use Rattle.std.specs.Prelude.{◌≡◌, ◌+◌, ◌≤◌, length};
ghost use Rattle.bank.specs.Bank.{bank_form, validate_of, check_of, channel_of, slot_of, slot_at, Handed};

use dump::Form;
use refusals::Refusal;

pub const DUMP_SIZE: usize = 4104;

// A bank's form.
pub fn bank_form() -> Form
    ensures { result ≡ bank_form }
{
    dump::yamaha_form(0x09, 4096)
}

// Why a bank's dump is refused, if it is.
pub fn validate(dump: &[u8]) -> Result<(), Refusal>
    ensures { result ≡ validate_of dump.now }
{
    dump::check(dump, bank_form())
}

// Why a slot of a dump is refused, if it is: the slot comes before the dump.
pub fn check(dump: &[u8], slot: usize) -> Result<(), Refusal>
    ensures { result ≡ check_of dump.now slot }
{
    let beyond = slot > 31;
    if beyond {
        return Err(Refusal::WrongTable);
    }
    validate(dump)
}

// The channel of a bank's dump.
pub fn channel(dump: &[u8]) -> Result<u8, Refusal>
    ensures { result ≡ channel_of dump.now }
{
    dump::channel(dump, bank_form())
}

// A slot's 128 bytes at their place, of a dump that has been validated.
pub fn slot_part<'a>(dump: &'a [u8], slot: usize) -> &'a [u8]
    requires { (length dump.now ≡ 4104) × (slot ≤ 31) }
    ensures { (result.now ≡ slot_of dump.now slot) × (result.ref_ptr ≡ slot_at dump.entry slot) }
{
    let a = 6 + slot * 128;
    let e = a + 128;
    &dump[a..e]
}

// A slot's 128 bytes, the very ones in the dump.
pub fn part<'a>(dump: &'a [u8], slot: usize) -> Result<&'a [u8], Refusal>
    ensures { Handed dump.entry slot result }
{
    check(dump, slot)?;
    Ok(slot_part(dump, slot))
}

// The named form: the borrowed dump and a slot number. Its functions take it apart and call those above.
#[derive(Clone, Copy)]
pub struct Reader<'a> {
    pub dump: &'a [u8],
    pub slot: usize,
}

impl<'a> Reader<'a> {
    pub fn new(dump: &'a [u8], slot: usize) -> Reader<'a>
        ensures { (result.dump ≡ dump.entry) × (result.slot ≡ slot) }
    {
        Reader { dump, slot }
    }

    // The same dump at another slot.
    pub fn moved(self, slot: usize) -> Reader<'a>
        ensures { (result.dump ≡ self.entry.dump) × (result.slot ≡ slot) }
    {
        Reader { slot, ..self }
    }

    pub fn check(self) -> Result<(), Refusal>
        ensures { result ≡ check_of self.entry.dump.now self.entry.slot }
    {
        check(self.dump, self.slot)
    }

    // The dump's channel, whatever the slot.
    pub fn channel(self) -> Result<u8, Refusal>
        ensures { result ≡ channel_of self.entry.dump.now }
    {
        channel(self.dump)
    }

    pub fn part(self) -> Result<&'a [u8], Refusal>
        ensures { Handed self.entry.dump self.entry.slot result }
    {
        part(self.dump, self.slot)
    }
}

// A slot's part by way of a reader, for every other caller: plain parameters.
pub fn read<'a>(dump: &'a [u8], slot: usize) -> Result<&'a [u8], Refusal>
    ensures handed { Handed dump.entry slot result }
{
    Reader::new(dump, slot).part()
}
