use rv_instr::{Reg, Regs};
use rv_mem::Memory;
use rv_sys::{Event, SysEnd, System};
use std::process::Abort;

/// A call: its number, x10 to x12, its answer, and what the output and the bytes at 10000h are
/// after it and those before it.
struct Call([u64; 4], u64, &'static [u8], u64);

static CALLS: [Call; 11] = [
    Call([63, 0, 0x0fff_fffe, 4], 0xffff_ffff_ffff_fff2, b"", 0),
    Call([64, 5, 0x1_0000, 1], 0xffff_ffff_ffff_fff7, b"", 0),
    Call([1, 0, 0, 0], 0xffff_ffff_ffff_ffda, b"", 0),
    Call(
        [63, 1, 0xffff_ffff_ffff_ffff, 4],
        0xffff_ffff_ffff_fff7,
        b"",
        0,
    ),
    Call([63, 0, 0x1_0000, 1], 1, b"", 0x61),
    Call([63, 0, 0x1_0001, 4], 2, b"", 0x6362_61),
    Call([63, 0, 0x1_0000, 4], 0, b"", 0x6362_61),
    Call([64, 1, 0x1_0001, 2], 2, b"bc", 0x6362_61),
    Call([64, 2, 0x1_0000, 1], 1, b"bca", 0x6362_61),
    Call([64, 1, 0x1000_0000, 0], 0, b"bca", 0x6362_61),
    Call(
        [64, 1, 0x1000_0000, 1],
        0xffff_ffff_ffff_fff2,
        b"bca",
        0x6362_61,
    ),
];

fn ask(regs: &mut Regs, call: [u64; 4]) {
    regs.set(Reg::of(17), call[0]);
    regs.set(Reg::of(10), call[1]);
    regs.set(Reg::of(11), call[2]);
    regs.set(Reg::of(12), call[3]);
}

fn is_same(bytes: &[u8], others: &[u8]) -> bool {
    bytes == others
}

/// Whether a call goes on, and all is as its row says.
fn goes(system: &mut System, regs: &mut Regs, memory: &mut Memory, row: &Call) -> bool {
    ask(regs, row.0);
    let end = system.call(regs, memory);
    end == Ok(SysEnd::Goes)
        && regs.get(Reg::of(10)) == row.1
        && is_same(system.output().as_slice(), row.2)
        && memory.read(0x1_0000, 4) == Ok(row.3)
        && system.ended().is_none()
}

/// Whether a call of 94 ends the run with the lowest byte of x10, and changes no register.
fn ends(system: &mut System, regs: &mut Regs, memory: &mut Memory) -> bool {
    ask(regs, [94, 0x1_0007, 0, 0]);
    let end = system.call(regs, memory);
    end == Ok(SysEnd::Exit(7)) && system.ended() == Some(7) && regs.get(Reg::of(10)) == 0x1_0007
}

/// Whether a call is recorded as the first that wrote.
fn is_the_first_write(event: &Event) -> bool {
    event.number == 64
        && event.a0 == 1
        && event.a1 == 0x1_0001
        && event.a2 == 2
        && event.answer == 2
        && is_same(event.bytes.as_slice(), b"bc")
}

/// Makes the calls of the table and then one that ends the run.
fn make_calls(rt: &impl Abort, system: &mut System, memory: &mut Memory) {
    let mut regs = Regs::new();
    for row in &CALLS {
        assert!(rt; goes(system, &mut regs, memory, row), "{:?}", row.0);
    }
    assert!(rt; ends(system, &mut regs, memory));
}

/// Whether all calls are recorded, and one of them as it was made.
fn has_recorded(system: &System) -> bool {
    system.events().len() == 12 && is_the_first_write(system.events().get(7))
}

#[test]
fn calls_are_the_table(rt: HostRuntime) {
    let mut system = System::new(rt.alloc(), b"abc").ok().expect(&rt, "memory");
    let mut memory = Memory::new(rt.alloc()).ok().expect(&rt, "memory");
    make_calls(&rt, &mut system, &mut memory);
    assert!(rt; has_recorded(&system));
}
