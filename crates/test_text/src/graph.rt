use cfi_graph::{Graph, GraphLine, GraphLines, SiteKind, Sort, read_graph, write_graph};
use rv_image::GraphVersion;
use rv_word::{NoMemory, Numbers, Places};
use sample_programs::{P_GRAPH, Q_GRAPH, is_told_as, rows};
use std::alloc::{AllocError, Global};

const FIRST: &[u8] = b"rvcfi-graph 1\n";

const SECOND: &[u8] = b"rvcfi-graph 1\ncode 40000000 00000104\n";

/// The first two lines of a text of version 2.
const SECOND_OF_2: &[u8] = b"rvcfi-graph 2\ncode 40000000 00000104\n";

/// The first two lines of a text of version 3, and a list of system calls behind them.
const SECOND_OF_3: &[u8] = b"rvcfi-graph 3\ncode 40000000 000000a0\n";

const THIRD_OF_3: &[u8] = b"rvcfi-graph 3\ncode 40000000 000000a0\ncalls 64\n";

/// The line from which a text is spelled, after the lines above that come first, the text from there on, with
/// `/` for each newline, and what it is read as.
const TEXTS: &[u8] = b"\
    from 1||line 1: Form\n\
    from 1|/|line 1: Form\n\
    from 1|rvcfi-graph 9/code 40000000 00000050/end/|line 1: Form\n\
    from 1|rvcfi-graph 1|line 1: Form\n\
    from 1|rvcfi-graph 1/|line 2: Form\n\
    from 1|rvcfi-graph 1 /code 40000000 00000050/end/|line 1: Form\n\
    from 1|RVCFI-graph 1/code 40000000 00000050/end/|line 1: Form\n\
    from 1|rvcfi-graph  1/code 40000000 00000050/end/|line 1: Form\n\
    from 1|rvcfi-graph 1\r/code 40000000 00000050\r/end\r/|line 1: Form\n\
    from 1|\x7fELF\x02\x01\x01\0/\0|line 1: Form\n\
    from 1|end/|line 1: Form\n\
    from 2|code 40000000 00000050|line 2: Form\n\
    from 2|code 40000000 00000050/|line 3: Form\n\
    from 2|code 40000000 00000052/end/|line 2: Range\n\
    from 2|code 40000000 00000000/end/|line 2: Range\n\
    from 2|code 40000000 00100004/end/|line 2: Range\n\
    from 2|code 40000000 ffffffff/end/|line 2: Range\n\
    from 2|code 40000000 00100000/end/|a graph\n\
    from 2|code 40000000 00000004/end/|a graph\n\
    from 2|code 40000000 00000050 /end/|line 2: Form\n\
    from 2|code 40000000  00000050/end/|line 2: Form\n\
    from 2| code 40000000 00000050/end/|line 2: Form\n\
    from 2|code 40000000 0000050/end/|line 2: Form\n\
    from 2|code 40000000 000000050/end/|line 2: Form\n\
    from 2|code 40000000 00050/end/|line 2: Form\n\
    from 2|code 40000000 0000005A/end/|line 2: Form\n\
    from 2|code 40000004 00000050/end/|line 2: Form\n\
    from 2|code 40000000/end/|line 2: Form\n\
    from 2|code 40000000 00000050 00000050/end/|line 2: Form\n\
    from 2|code 40000000 00000052|line 2: Form\n\
    from 2|end/|line 2: Form\n\
    from 2|call 4000000c 40000040/end/|line 2: Form\n\
    from 2|/|line 2: Form\n\
    from 3|end/|a graph\n\
    from 3||line 3: Form\n\
    from 3|end|line 3: Form\n\
    from 3|end//|line 4: Form\n\
    from 3|end/end/|line 4: Form\n\
    from 3|end/x|line 4: Form\n\
    from 3| end/|line 3: Form\n\
    from 3|end /|line 3: Form\n\
    from 3|End/|line 3: Form\n\
    from 3|/end/|line 3: Form\n\
    from 3|\0\0\0\0/|line 3: Form\n\
    from 3|class 00001/end/|a graph\n\
    from 3|class 0000a 400000c8 400000e4/end/|a graph\n\
    from 3|class fffff 40000000 40000100/end/|a graph\n\
    from 3|class 0000A/end/|line 3: Form\n\
    from 3|class 0001/end/|line 3: Form\n\
    from 3|class 000001/end/|line 3: Form\n\
    from 3|class 00000001/end/|line 3: Form\n\
    from 3|class/end/|line 3: Form\n\
    from 3|class 00001 /end/|line 3: Form\n\
    from 3|class 00001  400000c8/end/|line 3: Form\n\
    from 3|class 00001 400000C8/end/|line 3: Form\n\
    from 3|class 00001 00001/end/|line 3: Form\n\
    from 3|class 00001 400000c8|line 3: Form\n\
    from 3|class 00000/end/|line 3: Range\n\
    from 3|class 00001 400000ca/end/|line 3: Range\n\
    from 3|class 00001 40000104/end/|line 3: Range\n\
    from 3|class 00001 3ffffffc/end/|line 3: Range\n\
    from 3|class 00001 400000e4 400000ca/end/|line 3: Range\n\
    from 3|class 00000 400000cg/end/|line 3: Form\n\
    from 3|class 00001 400000e4 400000c8/end/|line 3: Order\n\
    from 3|class 00001 400000c8 400000c8/end/|line 3: Order\n\
    from 3|class 00001/class 00002/end/|a graph\n\
    from 3|class 00001/class 00001/end/|line 4: Order\n\
    from 3|class 00002/class 00001/end/|line 4: Order\n\
    from 3|class 00002/class 00000/end/|line 4: Range\n\
    from 3|class 00002 400000c8/class 00003 40000044/end/|a graph\n\
    from 3|site 4000005c call 00001/end/|a graph\n\
    from 3|site 4000005c jump fffff/end/|a graph\n\
    from 3|site 4000005c Call 00001/end/|line 3: Form\n\
    from 3|site 4000005c return 00001/end/|line 3: Form\n\
    from 3|site 4000005c call/end/|line 3: Form\n\
    from 3|site 4000005c call 00001 00002/end/|line 3: Form\n\
    from 3|site 4000005c call 000001/end/|line 3: Form\n\
    from 3|site 4000005C call 00001/end/|line 3: Form\n\
    from 3|site call 4000005c 00001/end/|line 3: Form\n\
    from 3|site 4000005c call 00000/end/|line 3: Range\n\
    from 3|site 4000005e call 00001/end/|line 3: Range\n\
    from 3|site 40000104 jump 00001/end/|line 3: Range\n\
    from 3|edge 40000040 40000050/end/|a graph\n\
    from 3|edge 40000040 40000040/end/|a graph\n\
    from 3|edge 40000040/end/|line 3: Form\n\
    from 3|edge 40000040 40000050 40000060/end/|line 3: Form\n\
    from 3|edge 40000040 4000005O/end/|line 3: Form\n\
    from 3|edge 4000040 40000050/end/|line 3: Form\n\
    from 3|edge 40000040 4000050/end/|line 3: Form\n\
    from 3|edge 040000040 40000050/end/|line 3: Form\n\
    from 3|edge 40000040 040000050/end/|line 3: Form\n\
    from 3|edge 040000040 4000050/end/|line 3: Form\n\
    from 3|edge 4000040 040000050/end/|line 3: Form\n\
    from 3|edge  40000040 4000050/end/|line 3: Form\n\
    from 3|edge 40000040  4000050/end/|line 3: Form\n\
    from 3|edge 40000040 4000050 /end/|line 3: Form\n\
    from 3|site 40000040 40000050/end/|line 3: Form\n\
    from 3|code 40000040 40000050/end/|line 3: Form\n\
    from 3|edge 40000040 40000041/end/|line 3: Range\n\
    from 3|edge 40000104 40000040/end/|line 3: Range\n\
    from 3|edge 40000042 40000040/end/|line 3: Range\n\
    from 3|call 4000000c 40000040/end/|a graph\n\
    from 3|call 4000000c 40000040|line 3: Form\n\
    from 3|call 4000000c 40000040/|line 4: Form\n\
    from 3|call 4000000c 40000040 /end/|line 3: Form\n\
    from 3|call 4000000c\t40000040/end/|line 3: Form\n\
    from 3|call 4000000c 40000040\r/end/|line 3: Form\n\
    from 3|call 000c 40000040/end/|line 3: Form\n\
    from 3|jump 4000000c 40000040/end/|line 3: Form\n\
    from 3|Call 4000000c 40000040/end/|line 3: Form\n\
    from 3|calls 1 2/end/|a graph\n\
    from 3|callclass 00001 400000c8/end/|line 3: Form\n\
    from 3|jumpclass 00001/end/|line 3: Form\n\
    from 3|callclass 00000 400000ca/end/|line 3: Form\n\
    from 3|class 00001/jumpclass 00002 400000c8/end/|line 4: Form\n\
    from 3|call 4000000c 40000040/callclass 00001/end/|line 4: Form\n\
    from 3|call 4000000c 40000104/end/|line 3: Range\n\
    from 3|call 0000000c 40000040/end/|line 3: Range\n\
    from 3|call 4000000c ffffffff/end/|line 3: Range\n\
    from 3|call 4000000c 40000040/call 4000000c 40000040/end/|line 4: Order\n\
    from 3|call 4000000c 40000040/edge 4000000c 40000040/end/|line 4: Order\n\
    from 3|edge 40000040 40000050/site 40000040 jump 00001/end/|line 4: Order\n\
    from 3|site 40000040 jump 00001/call 40000040 40000050/end/|line 4: Order\n\
    from 3|site 4000005c call 00001/call 4000000c 40000040/end/|line 4: Order\n\
    from 3|edge 40000050 40000040/edge 4000004c 40000040/end/|line 4: Order\n\
    from 3|call 4000000c 40000040/class 00001/end/|line 4: Order\n\
    from 3|edge 40000040 40000044/class 00001 400000c8/end|line 4: Order\n\
    from 3|site 40000040 jump 00001/class 00001/end/|line 4: Order\n\
    from 3|call 4000000c 40000040/class 00000/end/|line 4: Range\n\
    from 3|call 4000000c 40000040/class 0000g/end/|line 4: Form\n\
    from 3|call 4000000c 40000040/end/class 00001/|line 5: Form\n\
    from 3|class 00001/call 4000000c 40000040/class 00002/end/|line 5: Order\n\
    from 3|class 00002/call 4000000c 40000040/edge 40000042 40000040/end/|line 5: Range\n\
    from 3|class 00001 400000c8 400000e4/call 4000000c 40000040/edge 40000040 40000050/site 4000005c call 00001/end/|a graph\n\
";

/// The same of version 2, whose classes have two sorts.
const TEXTS_OF_2: &[u8] = b"\
    from 1|rvcfi-graph 2|line 1: Form\n\
    from 1|rvcfi-graph 2/|line 2: Form\n\
    from 1|rvcfi-graph 2/code 40000000 00000050/end/|a graph\n\
    from 1|rvcfi-graph 2/code 40000000 00100000/end/|a graph\n\
    from 1|rvcfi-graph 2 /code 40000000 00000050/end/|line 1: Form\n\
    from 1|rvcfi-graph  2/code 40000000 00000050/end/|line 1: Form\n\
    from 1|rvcfi-graph 02/code 40000000 00000050/end/|line 1: Form\n\
    from 1|rvcfi-graph 12/code 40000000 00000050/end/|line 1: Form\n\
    from 1|rvcfi-graph 0/code 40000000 00000050/end/|line 1: Form\n\
    from 1|rvcfi-graph 3/code 40000000 00000050/end/|a graph\n\
    from 1|rvcfi-graph 4/code 40000000 00000050/end/|line 1: Form\n\
    from 1|rvcfi-graph 2 split/code 40000000 00000050/end/|line 1: Form\n\
    from 1|rvcfi-graph/code 40000000 00000050/end/|line 1: Form\n\
    from 1|rvcfi-map 2/code 40000000 00000050/end/|line 1: Form\n\
    from 1|rvcfi-graph 2/rvcfi-graph 2/code 40000000 00000050/end/|line 2: Form\n\
    from 1|rvcfi-graph 2/code 40000000 00000050|line 2: Form\n\
    from 1|rvcfi-graph 2/code 40000000 00000050/|line 3: Form\n\
    from 1|rvcfi-graph 2/code 40000000 0000005A/end/|line 2: Form\n\
    from 1|rvcfi-graph 2/code 40000000 00000052/end/|line 2: Range\n\
    from 1|rvcfi-graph 2/code 40000000 00100004/end/|line 2: Range\n\
    from 1|rvcfi-graph 2/callclass 00001/code 40000000 00000050/end/|line 2: Form\n\
    2 from 3|end/|a graph\n\
    2 from 3|end|line 3: Form\n\
    2 from 3|end/x|line 4: Form\n\
    2 from 3|callclass 00001/end/|a graph\n\
    2 from 3|jumpclass 00001/end/|a graph\n\
    2 from 3|callclass 0000a 400000c8 400000e4/end/|a graph\n\
    2 from 3|jumpclass fffff 40000000 40000100/end/|a graph\n\
    2 from 3|class 00001/end/|line 3: Form\n\
    2 from 3|class 00001 400000c8 400000e4/end/|line 3: Form\n\
    2 from 3|class 00000 400000ca/end/|line 3: Form\n\
    2 from 3|callclass 00001/class 00002/end/|line 4: Form\n\
    2 from 3|call 4000000c 40000040/class 00001/end/|line 4: Form\n\
    2 from 3|callclass/end/|line 3: Form\n\
    2 from 3|jumpclass/end/|line 3: Form\n\
    2 from 3|callclass /end/|line 3: Form\n\
    2 from 3|jumpclass 0000A/end/|line 3: Form\n\
    2 from 3|callclass 0001/end/|line 3: Form\n\
    2 from 3|jumpclass 000001/end/|line 3: Form\n\
    2 from 3|callclass 00001 /end/|line 3: Form\n\
    2 from 3|jumpclass 00001  400000c8/end/|line 3: Form\n\
    2 from 3|callclass 00001 400000C8/end/|line 3: Form\n\
    2 from 3|jumpclass 00001 00001/end/|line 3: Form\n\
    2 from 3|callclass 00001 400000c8|line 3: Form\n\
    2 from 3|jumpclass 00001 400000c8/|line 4: Form\n\
    2 from 3|callclass 00001 400000c8\r/end/|line 3: Form\n\
    2 from 3| callclass 00001/end/|line 3: Form\n\
    2 from 3|Callclass 00001/end/|line 3: Form\n\
    2 from 3|jumpClass 00001/end/|line 3: Form\n\
    2 from 3|jumpclas 00001/end/|line 3: Form\n\
    2 from 3|callclasses 00001/end/|line 3: Form\n\
    2 from 3|call class 00001/end/|line 3: Form\n\
    2 from 3|jump class 00001/end/|line 3: Form\n\
    2 from 3|callclass 00000/end/|line 3: Range\n\
    2 from 3|jumpclass 00000 400000c8/end/|line 3: Range\n\
    2 from 3|callclass 00001 400000ca/end/|line 3: Range\n\
    2 from 3|jumpclass 00001 400000ca/end/|line 3: Range\n\
    2 from 3|callclass 00001 40000104/end/|line 3: Range\n\
    2 from 3|jumpclass 00001 3ffffffc/end/|line 3: Range\n\
    2 from 3|jumpclass 00001 400000e4 400000ca/end/|line 3: Range\n\
    2 from 3|callclass 00001 400000e4 400000c8/end/|line 3: Order\n\
    2 from 3|callclass 00001 400000c8 400000c8/end/|line 3: Order\n\
    2 from 3|jumpclass 00001 400000e4 400000c8/end/|line 3: Order\n\
    2 from 3|jumpclass 00001 400000c8 400000c8/end/|line 3: Order\n\
    2 from 3|callclass 00001/jumpclass 00002/end/|a graph\n\
    2 from 3|jumpclass 00001/callclass 00002/end/|a graph\n\
    2 from 3|callclass 00001/jumpclass 00003/callclass 00004/jumpclass 00007/end/|a graph\n\
    2 from 3|callclass 00001 400000c8/jumpclass 00002 400000c8/end/|a graph\n\
    2 from 3|jumpclass 00001 400000c8 400000e4/jumpclass 00002 400000c8/end/|a graph\n\
    2 from 3|callclass 00001/callclass 00001/end/|line 4: Order\n\
    2 from 3|jumpclass 00001/jumpclass 00001/end/|line 4: Order\n\
    2 from 3|callclass 00001/jumpclass 00001/end/|line 4: Order\n\
    2 from 3|jumpclass 00001/callclass 00001/end/|line 4: Order\n\
    2 from 3|callclass 00002/jumpclass 00001/end/|line 4: Order\n\
    2 from 3|jumpclass 00002/callclass 00001/end/|line 4: Order\n\
    2 from 3|callclass 00001/jumpclass 00003/callclass 00002/end/|line 5: Order\n\
    2 from 3|callclass 00002/jumpclass 00000/end/|line 4: Range\n\
    2 from 3|call 4000000c 40000040/callclass 00001/end/|line 4: Order\n\
    2 from 3|edge 40000040 40000044/jumpclass 00001 400000c8/end/|line 4: Order\n\
    2 from 3|site 40000040 jump 00001/callclass 00001/end/|line 4: Order\n\
    2 from 3|call 4000000c 40000040/jumpclass 00000/end/|line 4: Range\n\
    2 from 3|call 4000000c 40000040/jumpclass 0000g/end/|line 4: Form\n\
    2 from 3|callclass 00001/call 4000000c 40000040/jumpclass 00002/end/|line 5: Order\n\
    2 from 3|call 4000000c 40000040/end/callclass 00001/|line 5: Form\n\
    2 from 3|site 4000005c call 00001/site 40000090 jump 00001/end/|a graph\n\
    2 from 3|site 4000005c call 00000/end/|line 3: Range\n\
    2 from 3|edge 40000040 40000050/call 40000050 40000040/end/|a graph\n\
    2 from 3|edge 40000040 40000041/end/|line 3: Range\n\
    2 from 3|edge 40000050 40000040/call 4000000c 40000040/end/|line 4: Order\n\
    2 from 3|call 4000000c 40000040 40000044/end/|line 3: Form\n\
    from 1|rvcfi-graph 2/code 40000000 00000124/callclass 00001 4000009c/jumpclass 00002 4000007c 4000009c/call 4000000c 40000040/site 40000048 jump 00002/site 400000bc call 00001/end/|a graph\n\
    from 1|rvcfi-graph 1/code 40000000 00000124/callclass 00001 4000009c/jumpclass 00002 4000007c 4000009c/call 4000000c 40000040/site 40000048 jump 00002/site 400000bc call 00001/end/|line 3: Form\n\
";

/// The same with lists of system calls.
const TEXTS_OF_CALLS: &[u8] = b"\
    from 3|calls 64/end/|a graph\n\
    from 3|calls 0/end/|a graph\n\
    from 3|calls 2047/end/|a graph\n\
    from 3|calls 0 2047/end/|a graph\n\
    from 3|calls 9 10 100 1000/end/|a graph\n\
    from 3|calls 1 2 3 4 5 6 7 8/end/|a graph\n\
    from 3|calls 1 2 3 4 5 6 7 8 9/end/|line 3: Form\n\
    from 3|calls/end/|line 3: Form\n\
    from 3|calls /end/|line 3: Form\n\
    from 3|calls  64/end/|line 3: Form\n\
    from 3|calls 64 /end/|line 3: Form\n\
    from 3|calls 64  93/end/|line 3: Form\n\
    from 3| calls 64/end/|line 3: Form\n\
    from 3|Calls 64/end/|line 3: Form\n\
    from 3|callss 64/end/|line 3: Form\n\
    from 3|call 64/end/|line 3: Form\n\
    from 3|calls64/end/|line 3: Form\n\
    from 3|calls 00/end/|line 3: Form\n\
    from 3|calls 064/end/|line 3: Form\n\
    from 3|calls 64 093/end/|line 3: Form\n\
    from 3|calls +1/end/|line 3: Form\n\
    from 3|calls -1/end/|line 3: Form\n\
    from 3|calls 0x40/end/|line 3: Form\n\
    from 3|calls 4a/end/|line 3: Form\n\
    from 3|calls 64,93/end/|line 3: Form\n\
    from 3|calls 64\t93/end/|line 3: Form\n\
    from 3|calls 64\r/end/|line 3: Form\n\
    from 3|calls 2048/end/|line 3: Range\n\
    from 3|calls 64 2048/end/|line 3: Range\n\
    from 3|calls 65536/end/|line 3: Range\n\
    from 3|calls 65600/end/|line 3: Range\n\
    from 3|calls 18446744073709551680/end/|line 3: Range\n\
    from 3|calls 123456789012345678901234567890/end/|line 3: Range\n\
    from 3|calls 0123456789012345678901234567890/end/|line 3: Form\n\
    from 3|calls 12345678901234567890123456789x/end/|line 3: Form\n\
    from 3|calls 4096 2 1/end/|line 3: Range\n\
    from 3|calls 4096 x/end/|line 3: Form\n\
    from 3|calls 4096 1 2 3 4 5 6 7 8/end/|line 3: Form\n\
    from 3|calls 1 2 3 4 5 6 7 2048/end/|line 3: Range\n\
    from 3|calls 64 63/end/|line 3: Order\n\
    from 3|calls 64 64/end/|line 3: Order\n\
    from 3|calls 1 2 3 4 5 6 8 7/end/|line 3: Order\n\
    from 3|calls 64|line 3: Form\n\
    from 3|calls 2048|line 3: Form\n\
    from 3|calls 64/|line 4: Form\n\
    from 3|calls 64/calls 64/end/|line 4: Form\n\
    from 3|calls 64/calls 93/end/|line 4: Form\n\
    from 3|class 00001/calls 64/end/|line 4: Form\n\
    from 3|call 4000000c 40000040/calls 64/end/|line 4: Form\n\
    from 3|calls 64 93/class 00001 400000c8/call 4000000c 40000040/end/|a graph\n\
    from 3|calls 64/class 00000/end/|line 4: Range\n\
    from 3|calls 64/class 00002/class 00001/end/|line 5: Order\n\
    from 3|calls 64/callclass 00001/end/|line 4: Form\n\
    from 3|calls 64/end/x|line 5: Form\n\
    from 3|end/calls 64/|line 4: Form\n\
    from 2|calls 64/code 40000000 00000050/end/|line 2: Form\n\
    from 2|code 40000000 00000052/calls 64/end/|line 2: Range\n\
    from 1|calls 64/rvcfi-graph 1/code 40000000 00000050/end/|line 1: Form\n\
    2 from 3|calls 93/end/|a graph\n\
    2 from 3|calls 64 93/callclass 00001 400000c8/jumpclass 00002/end/|a graph\n\
    2 from 3|calls 64 64/end/|line 3: Order\n\
    2 from 3|calls 2048/end/|line 3: Range\n\
    2 from 3|calls/end/|line 3: Form\n\
    2 from 3|callclass 00001/calls 64/end/|line 4: Form\n\
    2 from 3|calls 64/class 00001/end/|line 4: Form\n\
    2 from 3|calls 64/calls 64/end/|line 4: Form\n\
";

/// The lines of a text before the line from which it is spelled.
fn head(name: &str) -> &'static [u8] {
    match name {
        "3 from 4" => THIRD_OF_3,
        "3 from 3" => SECOND_OF_3,
        "2 from 3" => SECOND_OF_2,
        "from 3" => SECOND,
        "from 2" => FIRST,
        _ => b"",
    }
}

/// The lines before a text, and the text.
fn joined(alloc: Global, head: &[u8], rest: &str) -> Result<Vec<u8>, AllocError> {
    [head, rest.as_bytes()].concat(alloc)
}

/// Puts a newline in place of each `/`.
pub(crate) fn break_lines(text: &mut [u8]) {
    for byte in text {
        if *byte == b'/' {
            *byte = b'\n';
        }
    }
}

/// Whether a text is read as these words say. A graph that is read is written as the same text.
fn is_read_as(alloc: Global, text: &[u8], expected: &str) -> bool {
    match read_graph(alloc, text) {
        Ok(graph) => expected == "a graph" && is_written_as(alloc, &graph, text),
        Err(end) => is_told_as(alloc, &end, expected),
    }
}

/// Whether a text is that of a graph.
fn is_written_as(alloc: Global, graph: &Graph, text: &[u8]) -> bool {
    match write_graph(alloc, graph) {
        Ok(written) => written.as_slice() == text,
        Err(_) => false,
    }
}

/// Whether a row says what its text is read as.
pub(crate) fn is_right(alloc: Global, row: &str) -> bool {
    let Some((name, rest)) = row.split_once('|') else {
        return false;
    };
    let Some((rest, expected)) = rest.split_once('|') else {
        return false;
    };
    match joined(alloc, head(name), rest) {
        Ok(mut text) => {
            break_lines(&mut text);
            is_read_as(alloc, &text, expected)
        }
        Err(_) => false,
    }
}

#[test]
fn texts(rt: HostRuntime) {
    for row in rows(TEXTS, 134).lines() {
        assert!(rt; is_right(rt.alloc(), row), "{row}");
    }
}

#[test]
fn texts_of_version_2(rt: HostRuntime) {
    for row in rows(TEXTS_OF_2, 92).lines() {
        assert!(rt; is_right(rt.alloc(), row), "{row}");
    }
}

#[test]
fn texts_of_calls(rt: HostRuntime) {
    for row in rows(TEXTS_OF_CALLS, 66).lines() {
        assert!(rt; is_right(rt.alloc(), row), "{row}");
    }
}

/// Whether a graph has a list of system calls with these numbers, or none.
fn has_calls(alloc: Global, text: &[u8], expected: Option<&[u16]>) -> bool {
    match read_graph(alloc, text) {
        Ok(graph) => is_list(graph.calls(), expected),
        Err(_) => false,
    }
}

/// Whether a list of system calls has these numbers.
pub(crate) fn is_list(calls: Option<Numbers>, expected: Option<&[u16]>) -> bool {
    match (calls, expected) {
        (Some(calls), Some(expected)) => calls.as_slice() == expected,
        (None, None) => true,
        _ => false,
    }
}

/// A graph with a list of system calls.
const LISTED: &[u8] = b"rvcfi-graph 1\ncode 40000000 00000104\ncalls 0 64 2047\nend\n";

#[test]
fn calls(rt: HostRuntime) {
    assert!(rt; has_calls(rt.alloc(), LISTED, Some(&[0, 64, 2047])));
    assert!(rt; has_calls(rt.alloc(), MADE, None));
    assert!(rt; has_calls(rt.alloc(), MADE_OF_A_CLASS, None));
}

#[test]
fn no_text(rt: HostRuntime) {
    assert!(rt; is_read_as(rt.alloc(), b"\xff\xfe\n\xff\n", "line 1: Form"));
}

const MADE: &[u8] = b"rvcfi-graph 1\ncode 40000000 00000104\nedge 40000040 40000050\nend\n";

/// The same graph of version 2.
const MADE_OF_2: &[u8] = b"rvcfi-graph 2\ncode 40000000 00000104\nedge 40000040 40000050\nend\n";

/// A graph of one class of jumps.
const MADE_OF_A_CLASS: &[u8] =
    b"rvcfi-graph 2\ncode 40000000 00000104\njumpclass 00001 400000c8\nend\n";

/// Bytes that stand in no line of a graph, those beside the digits and the letters among them.
const WRONG: &[u8] = b"\0\t\r!/:@AFG`hz{\xff";

/// Whether the text of a graph of one edge is refused at that line where this byte stands at this place.
fn is_refused_with(alloc: Global, place: usize, byte: u8) -> bool {
    match joined(alloc, MADE, "") {
        Ok(mut text) => {
            if let Some(old) = text.get_mut(place) {
                *old = byte;
            }
            is_read_as(alloc, &text, "line 3: Form")
        }
        Err(_) => false,
    }
}

#[test]
fn wrong_bytes(rt: HostRuntime) {
    for place in 37..60 {
        for byte in WRONG {
            assert!(rt; is_refused_with(rt.alloc(), place, *byte), "{place} {byte}");
        }
    }
}

/// Whether a graph has the counts of the worked one of version 1, and the opening's call as its second line.
fn has_parts(graph: &Graph) -> bool {
    graph.version() == GraphVersion::OneLabel
        && graph.code() == 0x104
        && graph.classes() == 1
        && graph.sites() == 1
        && graph.lines() == 3
        && matches!(graph.line(1), GraphLine::Call(0x4000_000c, 0x4000_0040))
}

/// Whether a line is a class of this sort, label and targets.
fn is_class_line(line: &GraphLine, is_for_calls: bool, label: u32, targets: &[u64]) -> bool {
    match line {
        GraphLine::Class(Sort::Calls, found, places) => {
            is_for_calls && *found == label && places.as_slice() == targets
        }
        GraphLine::Class(Sort::Jumps, found, places) => {
            !is_for_calls && *found == label && places.as_slice() == targets
        }
        _ => false,
    }
}

/// Whether a graph has the counts of the worked one of version 2, its two classes, and its sites.
fn has_parts_of_two_sorts(graph: &Graph) -> bool {
    graph.version() == GraphVersion::TwoLabels
        && graph.code() == 0x124
        && graph.classes() == 2
        && graph.sites() == 2
        && graph.lines() == 5
        && is_class_line(graph.line(0), true, 1, &[0x4000_009c])
        && is_class_line(graph.line(1), false, 2, &[0x4000_007c, 0x4000_009c])
        && matches!(
            graph.line(3),
            GraphLine::Site(0x4000_0048, SiteKind::Jump, 2)
        )
        && matches!(
            graph.line(4),
            GraphLine::Site(0x4000_00bc, SiteKind::Call, 1)
        )
}

/// Whether the worked graph of version 1 is read with its parts.
fn is_read_with_parts(alloc: Global) -> bool {
    match read_graph(alloc, P_GRAPH) {
        Ok(graph) => has_parts(&graph),
        Err(_) => false,
    }
}

/// Whether that of version 2 is.
fn is_read_with_two_sorts(alloc: Global) -> bool {
    match read_graph(alloc, Q_GRAPH) {
        Ok(graph) => has_parts_of_two_sorts(&graph),
        Err(_) => false,
    }
}

#[test]
fn parts(rt: HostRuntime) {
    assert!(rt; is_read_with_parts(rt.alloc()));
    assert!(rt; is_read_with_two_sorts(rt.alloc()));
}

/// A graph of one edge that is made of its parts.
fn made(alloc: Global, version: GraphVersion) -> Result<Graph, NoMemory> {
    let mut lines = Vec::new(alloc);
    lines.push(GraphLine::Edge(0x4000_0040, 0x4000_0050))?;
    Graph::of(alloc, version, 0x104, GraphLines::of(lines))
}

/// A graph of a class of jumps that is made of its parts.
fn made_of_a_class(alloc: Global) -> Result<Graph, NoMemory> {
    let mut targets = Vec::new(alloc);
    targets.push(0x4000_00c8)?;
    let mut lines = Vec::new(alloc);
    lines.push(GraphLine::Class(Sort::Jumps, 1, Places::of(targets)))?;
    Graph::of(alloc, GraphVersion::TwoLabels, 0x104, GraphLines::of(lines))
}

/// Whether the graph that is made of its parts is written as its text.
pub(crate) fn is_made_and_written(
    alloc: Global,
    graph: Result<Graph, NoMemory>,
    text: &[u8],
) -> bool {
    match graph {
        Ok(graph) => is_written_as(alloc, &graph, text),
        Err(_) => false,
    }
}

#[test]
fn made_of_parts(rt: HostRuntime) {
    let alloc = rt.alloc();
    assert!(rt; is_made_and_written(alloc, made(alloc, GraphVersion::OneLabel), MADE));
    assert!(rt; is_made_and_written(alloc, made(alloc, GraphVersion::TwoLabels), MADE_OF_2));
    assert!(rt; is_made_and_written(alloc, made_of_a_class(alloc), MADE_OF_A_CLASS));
}
