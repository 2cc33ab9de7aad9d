// The nine requests of the master. No control and no function can be chosen freely.
#![tactic(auto)]

ghost use Rattle.eversolar.specs.Writer.{WritesMessage};
ghost use Rattle.numbers.specs.Addresses.{is_address, is_serial};
ghost use Rattle.eversolar_requests.specs.Requests.{request, ask_all, ask_one, IsAskAll, IsAskOne, IsGiveAddress};
ghost use Rattle.eversolar_requests.specs.Inside.{IsCode, Passes};
ghost use Rattle.answers.specs.declared.Refusal.TheVariants.{WrongAddressOrExponentTooLow, NotForThisCall};

use answers::Refusal;
use eversolar::write;

// Requests that go to every inverter.
#[derive(Clone, Copy)]
pub enum ToAll {
    // 10/00: who is not registered
    OffLine,
    // 10/03: removed inverters come back
    Reconnect,
    // 10/04: inverters register again
    ReRegister,
}

// Requests that go to one address.
#[derive(Clone, Copy)]
pub enum ToOne {
    // 10/02: the registration is removed
    Remove,
    // 11/02
    Normal,
    // 11/03
    Identity,
    // 11/04
    Settings,
    // 11/10: the reply of fixed size, which has the total energy
    FixedSize,
}

// The master's own address, and the first byte of every other.
const MASTER_FIRST: u8 = 0x01;

const MASTER_SECOND: u8 = 0x00;

const OTHERS_FIRST: u8 = 0x00;

// The second byte of the destination that is every inverter.
const EVERYONE: u8 = 0x00;

// The two control codes.
const REGISTER: u8 = 0x10;

const READ: u8 = 0x11;

// The bytes of a serial.
const SERIAL_SIZE: usize = 16;

// The highest address that an inverter may have. The lowest is 1.
const LAST_ADDRESS: u8 = 254;

// A control and a function.
#[derive(Clone, Copy)]
struct Code {
    control: u8,
    function: u8,
}

// 10/01: an address is given.
const GIVE: Code = Code {
    control: REGISTER,
    function: 0x01,
};

impl ToAll {
    // All of them are of the registration.
    fn code(self) -> Code
        ensures { IsCode (ask_all self) result }
    {
        let function = match self {
            ToAll::OffLine => 0x00,
            ToAll::Reconnect => 0x03,
            ToAll::ReRegister => 0x04,
        };
        Code {
            control: REGISTER,
            function,
        }
    }
}

impl ToOne {
    // No address changes it.
    fn code(self) -> Code
        ensures { IsCode (ask_one self 0) result }
    {
        let (control, function) = match self {
            ToOne::Remove => (REGISTER, 0x02),
            ToOne::Normal => (READ, 0x02),
            ToOne::Identity => (READ, 0x03),
            ToOne::Settings => (READ, 0x04),
            ToOne::FixedSize => (READ, 0x10),
        };
        Code { control, function }
    }
}

// Tests that an inverter may have this address.
fn check_address(address: u8) -> Result<(), Refusal>
    ensures { Passes (is_address address) WrongAddressOrExponentTooLow result }
{
    if (1..=LAST_ADDRESS).contains(&address) {
        Ok(())
    } else {
        Err(Refusal::WrongAddressOrExponentTooLow)
    }
}

// Tests that these bytes are as many as a serial has.
fn check_serial(serial: &[u8]) -> Result<(), Refusal>
    ensures { Passes (is_serial serial.now) NotForThisCall result }
{
    if serial.len() == SERIAL_SIZE {
        Ok(())
    } else {
        Err(Refusal::NotForThisCall)
    }
}

// A message from the master.
fn from_master(
    destination: u8,
    code: Code,
    payload: &[u8],
    lent: &mut [u8],
) -> Result<usize, Refusal>
    ensures { WritesMessage (request destination code.control code.function payload.now) lent.old result lent.new }
{
    write(
        MASTER_FIRST,
        MASTER_SECOND,
        OTHERS_FIRST,
        destination,
        code.control,
        code.function,
        payload,
        lent,
    )
}

// Writes a request to every inverter.
pub fn ask_all(what: ToAll, lent: &mut [u8]) -> Result<usize, Refusal>
    ensures { IsAskAll what lent.old result lent.new }
{
    from_master(EVERYONE, what.code(), &[], lent)
}

// Writes a request to one address.
pub fn ask_one(what: ToOne, address: u8, lent: &mut [u8]) -> Result<usize, Refusal>
    ensures { IsAskOne what address lent.old result lent.new }
{
    check_address(address)?;
    from_master(address, what.code(), &[], lent)
}

// Writes the request that gives an address to the inverter of a serial.
pub fn give_address(serial: &[u8], address: u8, lent: &mut [u8]) -> Result<usize, Refusal>
    ensures { IsGiveAddress serial.now address lent.old result lent.new }
{
    check_address(address)?;
    check_serial(serial)?;
    let mut payload = [0; SERIAL_SIZE + 1];
    payload[..SERIAL_SIZE].copy_from_slice(serial);
    payload[SERIAL_SIZE] = address;
    from_master(EVERYONE, GIVE, &payload, lent)
}
