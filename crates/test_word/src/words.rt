use rv_code::{decode, encode, immediate_value};
use rv_instr::{
    BranchOp, FenceWord, Immediate, ImmediateOp, Instr, LoadOp, Reg, RegisterOp, Regs, ShiftOp,
    ShiftWordOp, StoreOp, UpperOp,
};
use sample_programs::numbers::{name, number, rows, word};

/// Words, a line each: the name, the word, the two registers in the order of the instruction's fields and
/// the immediate field, in hexadecimal, as tests/words/table.py prints them.
const WORDS: &[u8] = b"\
    lui 00000037 0 0 0\n\
    lui ffffffb7 1f 0 fffff\n\
    lui 800000b7 1 0 80000\n\
    lui 7ffff137 2 0 7ffff\n\
    lui 00001f37 1e 0 1\n\
    auipc 00000017 0 0 0\n\
    auipc ffffff97 1f 0 fffff\n\
    auipc 80000097 1 0 80000\n\
    auipc 7ffff117 2 0 7ffff\n\
    auipc 00001f17 1e 0 1\n\
    jal 0000006f 0 0 0\n\
    jal 7fffffef 1f 0 7ffff\n\
    jal 800000ef 1 0 80000\n\
    jal fffff06f 0 0 fffff\n\
    jal 001000ef 1 0 400\n\
    jal 801ff2ef 5 0 ffc00\n\
    jal 0000136f 6 0 800\n\
    jal 2abaa3ef 7 0 55555\n\
    jalr 00000067 0 0 0\n\
    jalr 7fff8fe7 1f 1f 7ff\n\
    jalr 800100e7 1 2 800\n\
    jalr fff00fe7 1f 0 fff\n\
    jalr 001f8067 0 1f 1\n\
    beq 7e000fe3 0 0 7ff\n\
    beq 81ff8063 1f 1f 800\n\
    beq 00208063 1 2 0\n\
    beq fe0f8fe3 1f 0 fff\n\
    beq 01f000e3 0 1f 400\n\
    bne 00001163 0 0 1\n\
    bne 7fff9fe3 1f 1f 7ff\n\
    bne 80209063 1 2 800\n\
    bne 540f9a63 1f 0 2aa\n\
    bne d5f01b63 0 1f aab\n\
    blt 7e004fe3 0 0 7ff\n\
    blt 81ffc063 1f 1f 800\n\
    blt 0020c063 1 2 0\n\
    blt fe0fcfe3 1f 0 fff\n\
    blt 01f040e3 0 1f 400\n\
    bge 00005163 0 0 1\n\
    bge 7fffdfe3 1f 1f 7ff\n\
    bge 8020d063 1 2 800\n\
    bge 540fda63 1f 0 2aa\n\
    bge d5f05b63 0 1f aab\n\
    bltu 7e006fe3 0 0 7ff\n\
    bltu 81ffe063 1f 1f 800\n\
    bltu 0020e063 1 2 0\n\
    bltu fe0fefe3 1f 0 fff\n\
    bltu 01f060e3 0 1f 400\n\
    bgeu 00007163 0 0 1\n\
    bgeu 7fffffe3 1f 1f 7ff\n\
    bgeu 8020f063 1 2 800\n\
    bgeu 540ffa63 1f 0 2aa\n\
    bgeu d5f07b63 0 1f aab\n\
    lb 00000003 0 0 0\n\
    lb 7fff8f83 1f 1f 7ff\n\
    lb 80010083 1 2 800\n\
    lb fff00f83 1f 0 fff\n\
    lb 001f8003 0 1f 1\n\
    lh 7ff01003 0 0 7ff\n\
    lh 800f9f83 1f 1f 800\n\
    lh fff11083 1 2 fff\n\
    lh 00101f83 1f 0 1\n\
    lh 000f9003 0 1f 0\n\
    lw 80002003 0 0 800\n\
    lw ffffaf83 1f 1f fff\n\
    lw 00112083 1 2 1\n\
    lw 00002f83 1f 0 0\n\
    lw 7fffa003 0 1f 7ff\n\
    ld fff03003 0 0 fff\n\
    ld 001fbf83 1f 1f 1\n\
    ld 00013083 1 2 0\n\
    ld 7ff03f83 1f 0 7ff\n\
    ld 800fb003 0 1f 800\n\
    lbu 00104003 0 0 1\n\
    lbu 000fcf83 1f 1f 0\n\
    lbu 7ff14083 1 2 7ff\n\
    lbu 80004f83 1f 0 800\n\
    lbu ffffc003 0 1f fff\n\
    lhu 00005003 0 0 0\n\
    lhu 7fffdf83 1f 1f 7ff\n\
    lhu 80015083 1 2 800\n\
    lhu fff05f83 1f 0 fff\n\
    lhu 001fd003 0 1f 1\n\
    lwu 7ff06003 0 0 7ff\n\
    lwu 800fef83 1f 1f 800\n\
    lwu fff16083 1 2 fff\n\
    lwu 00106f83 1f 0 1\n\
    lwu 000fe003 0 1f 0\n\
    sb 00000fa3 0 0 1f\n\
    sb ffff8023 1f 1f fe0\n\
    sb 7e110fa3 2 1 7ff\n\
    sb 81f00023 0 1f 800\n\
    sb fe0f8fa3 1f 0 fff\n\
    sh fe001023 0 0 fe0\n\
    sh 7fff9fa3 1f 1f 7ff\n\
    sh 80111023 2 1 800\n\
    sh fff01fa3 0 1f fff\n\
    sh 000f9fa3 1f 0 1f\n\
    sw 7e002fa3 0 0 7ff\n\
    sw 81ffa023 1f 1f 800\n\
    sw fe112fa3 2 1 fff\n\
    sw 01f02fa3 0 1f 1f\n\
    sw fe0fa023 1f 0 fe0\n\
    sd 80003023 0 0 800\n\
    sd ffffbfa3 1f 1f fff\n\
    sd 00113fa3 2 1 1f\n\
    sd fff03023 0 1f fe0\n\
    sd 7e0fbfa3 1f 0 7ff\n\
    addi 00000013 0 0 0\n\
    addi 7fff8f93 1f 1f 7ff\n\
    addi 80010093 1 2 800\n\
    addi fff00f93 1f 0 fff\n\
    addi 001f8013 0 1f 1\n\
    slti 7ff02013 0 0 7ff\n\
    slti 800faf93 1f 1f 800\n\
    slti fff12093 1 2 fff\n\
    slti 00102f93 1f 0 1\n\
    slti 000fa013 0 1f 0\n\
    sltiu 80003013 0 0 800\n\
    sltiu ffffbf93 1f 1f fff\n\
    sltiu 00113093 1 2 1\n\
    sltiu 00003f93 1f 0 0\n\
    sltiu 7fffb013 0 1f 7ff\n\
    xori fff04013 0 0 fff\n\
    xori 001fcf93 1f 1f 1\n\
    xori 00014093 1 2 0\n\
    xori 7ff04f93 1f 0 7ff\n\
    xori 800fc013 0 1f 800\n\
    ori 00106013 0 0 1\n\
    ori 000fef93 1f 1f 0\n\
    ori 7ff16093 1 2 7ff\n\
    ori 80006f93 1f 0 800\n\
    ori ffffe013 0 1f fff\n\
    andi 00007013 0 0 0\n\
    andi 7fffff93 1f 1f 7ff\n\
    andi 80017093 1 2 800\n\
    andi fff07f93 1f 0 fff\n\
    andi 001ff013 0 1f 1\n\
    addiw 7ff0001b 0 0 7ff\n\
    addiw 800f8f9b 1f 1f 800\n\
    addiw fff1009b 1 2 fff\n\
    addiw 00100f9b 1f 0 1\n\
    addiw 000f801b 0 1f 0\n\
    slli 00001013 0 0 0\n\
    slli 03ff9f93 1f 1f 3f\n\
    slli 02011093 1 2 20\n\
    slli 01f01f93 1f 0 1f\n\
    slli 001f9013 0 1f 1\n\
    srli 00005013 0 0 0\n\
    srli 03ffdf93 1f 1f 3f\n\
    srli 02015093 1 2 20\n\
    srli 01f05f93 1f 0 1f\n\
    srli 001fd013 0 1f 1\n\
    srai 40005013 0 0 0\n\
    srai 43ffdf93 1f 1f 3f\n\
    srai 42015093 1 2 20\n\
    srai 41f05f93 1f 0 1f\n\
    srai 401fd013 0 1f 1\n\
    slliw 0000101b 0 0 0\n\
    slliw 01ff9f9b 1f 1f 1f\n\
    slliw 0101109b 1 2 10\n\
    slliw 00f01f9b 1f 0 f\n\
    slliw 001f901b 0 1f 1\n\
    srliw 0000501b 0 0 0\n\
    srliw 01ffdf9b 1f 1f 1f\n\
    srliw 0101509b 1 2 10\n\
    srliw 00f05f9b 1f 0 f\n\
    srliw 001fd01b 0 1f 1\n\
    sraiw 4000501b 0 0 0\n\
    sraiw 41ffdf9b 1f 1f 1f\n\
    sraiw 4101509b 1 2 10\n\
    sraiw 40f05f9b 1f 0 f\n\
    sraiw 401fd01b 0 1f 1\n\
    add 00000033 0 0 0\n\
    add 01ff8fb3 1f 1f 1f\n\
    add 004100b3 1 2 4\n\
    add 01f40833 10 8 1f\n\
    sub 40000033 0 0 0\n\
    sub 41ff8fb3 1f 1f 1f\n\
    sub 404100b3 1 2 4\n\
    sub 41f40833 10 8 1f\n\
    sll 00001033 0 0 0\n\
    sll 01ff9fb3 1f 1f 1f\n\
    sll 004110b3 1 2 4\n\
    sll 01f41833 10 8 1f\n\
    slt 00002033 0 0 0\n\
    slt 01ffafb3 1f 1f 1f\n\
    slt 004120b3 1 2 4\n\
    slt 01f42833 10 8 1f\n\
    sltu 00003033 0 0 0\n\
    sltu 01ffbfb3 1f 1f 1f\n\
    sltu 004130b3 1 2 4\n\
    sltu 01f43833 10 8 1f\n\
    xor 00004033 0 0 0\n\
    xor 01ffcfb3 1f 1f 1f\n\
    xor 004140b3 1 2 4\n\
    xor 01f44833 10 8 1f\n\
    srl 00005033 0 0 0\n\
    srl 01ffdfb3 1f 1f 1f\n\
    srl 004150b3 1 2 4\n\
    srl 01f45833 10 8 1f\n\
    sra 40005033 0 0 0\n\
    sra 41ffdfb3 1f 1f 1f\n\
    sra 404150b3 1 2 4\n\
    sra 41f45833 10 8 1f\n\
    or 00006033 0 0 0\n\
    or 01ffefb3 1f 1f 1f\n\
    or 004160b3 1 2 4\n\
    or 01f46833 10 8 1f\n\
    and 00007033 0 0 0\n\
    and 01ffffb3 1f 1f 1f\n\
    and 004170b3 1 2 4\n\
    and 01f47833 10 8 1f\n\
    addw 0000003b 0 0 0\n\
    addw 01ff8fbb 1f 1f 1f\n\
    addw 004100bb 1 2 4\n\
    addw 01f4083b 10 8 1f\n\
    subw 4000003b 0 0 0\n\
    subw 41ff8fbb 1f 1f 1f\n\
    subw 404100bb 1 2 4\n\
    subw 41f4083b 10 8 1f\n\
    sllw 0000103b 0 0 0\n\
    sllw 01ff9fbb 1f 1f 1f\n\
    sllw 004110bb 1 2 4\n\
    sllw 01f4183b 10 8 1f\n\
    srlw 0000503b 0 0 0\n\
    srlw 01ffdfbb 1f 1f 1f\n\
    srlw 004150bb 1 2 4\n\
    srlw 01f4583b 10 8 1f\n\
    sraw 4000503b 0 0 0\n\
    sraw 41ffdfbb 1f 1f 1f\n\
    sraw 404150bb 1 2 4\n\
    sraw 41f4583b 10 8 1f\n\
    mul 02000033 0 0 0\n\
    mul 03ff8fb3 1f 1f 1f\n\
    mul 024100b3 1 2 4\n\
    mul 03f40833 10 8 1f\n\
    mulh 02001033 0 0 0\n\
    mulh 03ff9fb3 1f 1f 1f\n\
    mulh 024110b3 1 2 4\n\
    mulh 03f41833 10 8 1f\n\
    mulhsu 02002033 0 0 0\n\
    mulhsu 03ffafb3 1f 1f 1f\n\
    mulhsu 024120b3 1 2 4\n\
    mulhsu 03f42833 10 8 1f\n\
    mulhu 02003033 0 0 0\n\
    mulhu 03ffbfb3 1f 1f 1f\n\
    mulhu 024130b3 1 2 4\n\
    mulhu 03f43833 10 8 1f\n\
    div 02004033 0 0 0\n\
    div 03ffcfb3 1f 1f 1f\n\
    div 024140b3 1 2 4\n\
    div 03f44833 10 8 1f\n\
    divu 02005033 0 0 0\n\
    divu 03ffdfb3 1f 1f 1f\n\
    divu 024150b3 1 2 4\n\
    divu 03f45833 10 8 1f\n\
    rem 02006033 0 0 0\n\
    rem 03ffefb3 1f 1f 1f\n\
    rem 024160b3 1 2 4\n\
    rem 03f46833 10 8 1f\n\
    remu 02007033 0 0 0\n\
    remu 03ffffb3 1f 1f 1f\n\
    remu 024170b3 1 2 4\n\
    remu 03f47833 10 8 1f\n\
    mulw 0200003b 0 0 0\n\
    mulw 03ff8fbb 1f 1f 1f\n\
    mulw 024100bb 1 2 4\n\
    mulw 03f4083b 10 8 1f\n\
    divw 0200403b 0 0 0\n\
    divw 03ffcfbb 1f 1f 1f\n\
    divw 024140bb 1 2 4\n\
    divw 03f4483b 10 8 1f\n\
    divuw 0200503b 0 0 0\n\
    divuw 03ffdfbb 1f 1f 1f\n\
    divuw 024150bb 1 2 4\n\
    divuw 03f4583b 10 8 1f\n\
    remw 0200603b 0 0 0\n\
    remw 03ffefbb 1f 1f 1f\n\
    remw 024160bb 1 2 4\n\
    remw 03f4683b 10 8 1f\n\
    remuw 0200703b 0 0 0\n\
    remuw 03ffffbb 1f 1f 1f\n\
    remuw 024170bb 1 2 4\n\
    remuw 03f4783b 10 8 1f\n\
    fence 0ff0000f 0 0 0\n\
    fence 0210000f 0 0 0\n\
    fence 0330000f 0 0 0\n\
    fence 8330000f 0 0 0\n\
    fence 0000000f 0 0 0\n\
    fence 0051008f 0 0 0\n\
    fence ffff8f8f 0 0 0\n\
    ecall 00000073 0 0 0\n\
    ebreak 00100073 0 0 0\n\
    ebreak 00100073 0 0 0\n\
    ebreak 00100073 0 0 0\n\
    ebreak 00100073 0 0 0\n\
    lui 10000137 2 0 10000\n\
    lui 600001b7 3 0 60000\n\
    addi 00818193 3 3 8\n\
    slli 03019f13 1e 3 30\n\
    bne 000f1463 1e 0 4\n\
    jal fe9ff06f 0 0 ffff4\n\
    auipc 00000f17 1e 0 0\n\
    addi 014f0f13 1e 1e 14\n\
    sd 01e1b023 3 1e 0\n\
    addi 00818193 3 3 8\n\
    jal 00c000ef 1 0 6\n\
    addi 05d00893 11 0 5d\n\
    ecall 00000073 0 0 0\n\
    ld ff81bf83 1f 3 ff8\n\
    lui 00001037 0 0 1\n\
    slli 03019f13 1e 3 30\n\
    bne 000f1463 1e 0 4\n\
    jal fe9ff06f 0 0 ffff4\n\
    sd 01e1b023 3 1e 0\n\
    andi ffcfff93 1f 1f ffc\n\
    lui 40000f37 1e 0 40000\n\
    sub 41ef8f33 1e 1f 1e\n\
    srli 014f5f13 1e 1e 14\n\
    beq 000f0463 1e 0 4\n\
    lw 000faf03 1e 1f 0\n\
    lui 00001237 4 0 1\n\
    addi 03720213 4 4 37\n\
    beq 004f0463 1e 4 4\n\
    jalr 000f8067 0 1f 0\n\
    jalr 000f80e7 1 1f 0\n\
    sd 00113423 2 1 8\n\
    addi 00810f93 1f 2 8\n\
    slli 024f9f93 1f 1f 24\n\
    srli 024fdf93 1f 1f 24\n\
    sd 001fb023 1f 1 0\n\
";

/// Words of other extensions and of none.
static OTHERS: [u32; 60] = [
    0x0000_0000,
    0x0000_100f,
    0x3000_1073,
    0xc000_20f3,
    0x003f_dff3,
    0x3020_0073,
    0x1020_0073,
    0x1050_0073,
    0x1200_0073,
    0x1001_20af,
    0x1821_b0af,
    0x0021_a0af,
    0xe1ee_bfaf,
    0x0001_2087,
    0xff8f_bf87,
    0x0011_2027,
    0x01f1_3427,
    0x0031_70d3,
    0x2231_70c3,
    0xc221_70d3,
    0x4031_70b3,
    0x4031_40b3,
    0x6031_10b3,
    0x63f1_5093,
    0x6001_1093,
    0x602f_9f93,
    0x0a31_60b3,
    0x0801_40bb,
    0x2031_20b3,
    0x0831_00bb,
    0x0bf1_109b,
    0x2831_10b3,
    0x4811_5093,
    0x0000_9067,
    0x0020_a463,
    0x0020_b463,
    0x0001_7083,
    0x0011_4023,
    0x0001_209b,
    0x0201_109b,
    0x4201_509b,
    0x0401_1093,
    0x4001_1093,
    0x7ff1_5093,
    0x4031_10b3,
    0x0031_20bb,
    0x4031_10bb,
    0x0231_10bb,
    0x0231_20bb,
    0x0231_30bb,
    0x4231_00b3,
    0x4231_50b3,
    0x4231_00bb,
    0x0031_40bb,
    0x8231_70bb,
    0x0631_40b3,
    0x0020_0073,
    0x0000_00f3,
    0x0010_8073,
    0x0000_200f,
];

/// How an instruction is made of the fields of its row.
enum Form {
    Upper(UpperOp),
    Jal,
    Jalr,
    Branch(BranchOp),
    Load(LoadOp),
    Store(StoreOp),
    Immediate(ImmediateOp),
    Shift(ShiftOp),
    ShiftWord(ShiftWordOp),
    Register(RegisterOp),
    Fence,
    Ecall,
    Ebreak,
}

static FORMS: [(&str, Form); 65] = [
    ("lui", Form::Upper(UpperOp::Lui)),
    ("auipc", Form::Upper(UpperOp::Auipc)),
    ("jal", Form::Jal),
    ("jalr", Form::Jalr),
    ("beq", Form::Branch(BranchOp::Beq)),
    ("bne", Form::Branch(BranchOp::Bne)),
    ("blt", Form::Branch(BranchOp::Blt)),
    ("bge", Form::Branch(BranchOp::Bge)),
    ("bltu", Form::Branch(BranchOp::Bltu)),
    ("bgeu", Form::Branch(BranchOp::Bgeu)),
    ("lb", Form::Load(LoadOp::Lb)),
    ("lh", Form::Load(LoadOp::Lh)),
    ("lw", Form::Load(LoadOp::Lw)),
    ("ld", Form::Load(LoadOp::Ld)),
    ("lbu", Form::Load(LoadOp::Lbu)),
    ("lhu", Form::Load(LoadOp::Lhu)),
    ("lwu", Form::Load(LoadOp::Lwu)),
    ("sb", Form::Store(StoreOp::Sb)),
    ("sh", Form::Store(StoreOp::Sh)),
    ("sw", Form::Store(StoreOp::Sw)),
    ("sd", Form::Store(StoreOp::Sd)),
    ("addi", Form::Immediate(ImmediateOp::Addi)),
    ("slti", Form::Immediate(ImmediateOp::Slti)),
    ("sltiu", Form::Immediate(ImmediateOp::Sltiu)),
    ("xori", Form::Immediate(ImmediateOp::Xori)),
    ("ori", Form::Immediate(ImmediateOp::Ori)),
    ("andi", Form::Immediate(ImmediateOp::Andi)),
    ("addiw", Form::Immediate(ImmediateOp::Addiw)),
    ("slli", Form::Shift(ShiftOp::Slli)),
    ("srli", Form::Shift(ShiftOp::Srli)),
    ("srai", Form::Shift(ShiftOp::Srai)),
    ("slliw", Form::ShiftWord(ShiftWordOp::Slliw)),
    ("srliw", Form::ShiftWord(ShiftWordOp::Srliw)),
    ("sraiw", Form::ShiftWord(ShiftWordOp::Sraiw)),
    ("add", Form::Register(RegisterOp::Add)),
    ("sub", Form::Register(RegisterOp::Sub)),
    ("sll", Form::Register(RegisterOp::Sll)),
    ("slt", Form::Register(RegisterOp::Slt)),
    ("sltu", Form::Register(RegisterOp::Sltu)),
    ("xor", Form::Register(RegisterOp::Xor)),
    ("srl", Form::Register(RegisterOp::Srl)),
    ("sra", Form::Register(RegisterOp::Sra)),
    ("or", Form::Register(RegisterOp::Or)),
    ("and", Form::Register(RegisterOp::And)),
    ("addw", Form::Register(RegisterOp::Addw)),
    ("subw", Form::Register(RegisterOp::Subw)),
    ("sllw", Form::Register(RegisterOp::Sllw)),
    ("srlw", Form::Register(RegisterOp::Srlw)),
    ("sraw", Form::Register(RegisterOp::Sraw)),
    ("mul", Form::Register(RegisterOp::Mul)),
    ("mulh", Form::Register(RegisterOp::Mulh)),
    ("mulhsu", Form::Register(RegisterOp::Mulhsu)),
    ("mulhu", Form::Register(RegisterOp::Mulhu)),
    ("div", Form::Register(RegisterOp::Div)),
    ("divu", Form::Register(RegisterOp::Divu)),
    ("rem", Form::Register(RegisterOp::Rem)),
    ("remu", Form::Register(RegisterOp::Remu)),
    ("mulw", Form::Register(RegisterOp::Mulw)),
    ("divw", Form::Register(RegisterOp::Divw)),
    ("divuw", Form::Register(RegisterOp::Divuw)),
    ("remw", Form::Register(RegisterOp::Remw)),
    ("remuw", Form::Register(RegisterOp::Remuw)),
    ("fence", Form::Fence),
    ("ecall", Form::Ecall),
    ("ebreak", Form::Ebreak),
];

fn form_of(name: &str) -> Option<&'static Form> {
    for row in &FORMS {
        if row.0 == name {
            return Some(&row.1);
        }
    }
    None
}

/// The register at a place of a row.
fn register_at(row: &str, at: usize) -> Option<Reg> {
    Reg::new(u8::try_from(number(row, at)?).ok()?)
}

/// The instruction of a row of a form, with its first two registers and its field.
fn instruction_of(form: &Form, row: &str, first: Reg, second: Reg, field: u32) -> Option<Instr> {
    let imm = Immediate::of(field & 0xfff);
    Some(match *form {
        Form::Upper(op) => Instr::Upper(op, first, Immediate::of(field & 0xf_ffff)),
        Form::Jal => Instr::Jal(first, Immediate::of(field & 0xf_ffff)),
        Form::Jalr => Instr::Jalr(first, second, imm),
        Form::Branch(op) => Instr::Branch(op, first, second, imm),
        Form::Load(op) => Instr::Load(op, first, second, imm),
        Form::Store(op) => Instr::Store(op, first, second, imm),
        Form::Immediate(op) => Instr::Immediate(op, first, second, imm),
        Form::Shift(op) => Instr::Shift(op, first, second, Immediate::of(field & 0x3f)),
        Form::ShiftWord(op) => Instr::ShiftWord(op, first, second, Immediate::of(field & 0x1f)),
        Form::Register(op) => Instr::Register(op, first, second, register_at(row, 4)?),
        Form::Fence => Instr::Fence(FenceWord::new(word(row, 1)?)?),
        Form::Ecall => Instr::Ecall,
        Form::Ebreak => Instr::Ebreak,
    })
}

/// The instruction of a row of `WORDS`; none where the row is not understood.
fn instruction(row: &str) -> Option<Instr> {
    let (first, second) = (register_at(row, 2)?, register_at(row, 3)?);
    instruction_of(form_of(name(row))?, row, first, second, word(row, 4)?)
}

/// Whether the instruction of a row is encoded as this word.
fn is_encoded(row: &str, word: u32) -> bool {
    match instruction(row) {
        Some(instr) => encode(instr) == word,
        None => false,
    }
}

/// Whether a row's word is decoded as its instruction, which is encoded as the word.
fn is_right(row: &str) -> bool {
    match word(row, 1) {
        Some(word) => decode(word) == instruction(row) && is_encoded(row, word),
        None => false,
    }
}

#[test]
fn words_of_an_assembler(rt: HostRuntime) {
    let table = WORDS;
    assert!(rt; rows(table).count() == 332);
    for row in rows(table) {
        assert!(rt; is_right(row), "{row}");
    }
}

#[test]
fn words_of_no_instruction(rt: HostRuntime) {
    for &word in &OTHERS {
        assert!(rt; decode(word).is_none(), "{word:08x}");
    }
}

/// Words, the registers that they name as bits, and the register that they write.
static OPERANDS: [(u32, u32, Option<u8>); 8] = [
    (0x7fff_f137, 1 << 2, Some(2)),
    (0x001f_8067, (1 << 0) | (1 << 31), Some(0)),
    (0x004f_0463, (1 << 30) | (1 << 4), None),
    (0xff81_bf83, (1 << 31) | (1 << 3), Some(31)),
    (0x0011_3423, (1 << 2) | (1 << 1), None),
    (0x01f4_0833, (1 << 16) | (1 << 8) | (1 << 31), Some(16)),
    (0x0051_008f, 0, None),
    (0x0000_0073, 0, None),
];

fn named(instr: &Instr) -> u32 {
    let mut registers = 0;
    for number in 0..32 {
        if instr.names(Reg::of(number)) {
            registers |= 1 << number;
        }
    }
    registers
}

/// Whether a word names and writes the registers of its row.
fn has_operands(row: &(u32, u32, Option<u8>)) -> bool {
    match decode(row.0) {
        Some(instr) => named(&instr) == row.1 && instr.writes().map(Reg::number) == row.2,
        None => false,
    }
}

#[test]
fn operands_of_words(rt: HostRuntime) {
    for row in &OPERANDS {
        assert!(rt; has_operands(row), "{:08x}", row.0);
    }
}

/// Whether each register but x0 holds what was written to it.
fn holds_numbers() -> bool {
    let mut regs = Regs::new();
    for number in 0..32 {
        regs.set(Reg::of(number), u64::MAX - u64::from(number));
    }
    regs.get(Reg::of(0)) == 0
        && regs.get(Reg::of(1)) == 0xffff_ffff_ffff_fffe
        && regs.get(Reg::of(31)) == 0xffff_ffff_ffff_ffe0
}

/// Whether immediates are extended by their sign.
fn extends_signs() -> bool {
    let negative: Immediate<12> = Immediate::of(0xff8);
    let positive: Immediate<20> = Immediate::of(0x7ffff);
    immediate_value(negative) == 0xffff_ffff_ffff_fff8 && immediate_value(positive) == 0x7ffff
}

#[test]
fn registers_hold_what_is_written(rt: HostRuntime) {
    assert!(rt; holds_numbers());
    assert!(rt; extends_signs());
}
