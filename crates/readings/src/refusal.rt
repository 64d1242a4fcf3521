// A refusal as a table has it.
use text::Fault;

// Its number, its layer and its place.
pub(crate) type Refusal = (u8, u8, usize);

pub(crate) fn refusal(fault: Fault) -> Refusal {
    (fault.number(), fault.layer(), fault.place)
}
