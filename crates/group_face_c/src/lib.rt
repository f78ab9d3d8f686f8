// The message of a balise group for C: the library `group_face` as a static library, its export with the promise of the function that it calls.
#![tactic(auto)]

ghost use Rattle.format.specs.Rules.{paper};
ghost use Rattle.group_face.specs.GroupCodes.{GroupAnswer};

// Lists the packets of a group's message: how many there are, or its refusal, which leaves both runs as they were.
#[unsafe(no_mangle)]
pub extern "C" fn sinkerpost_group(
    bytes: &[u8],
    ns: &[usize],
    pigs: &mut [u8],
    numbers: &mut [u8],
) -> u64
    ensures { GroupAnswer paper bytes.now ns.now pigs.old numbers.old result pigs.new numbers.new }
{
    group_face::sinkerpost_group(bytes, ns, pigs, numbers)
}
