//! Maps of objects that are hardened under lists of system calls, each ECALL with the size of its unit or with another one; and how
//! their runs end, where each map is one of its program's. tests/model/lists_tables.py at the top of the repository prints this.

use crate::placed::first_wrong;
use sample_hardened::listed_programs;

// A line a map: an object by its number in `listed_programs`, the map, and what is told, as in `placed`.
static LINES: &[u8] = b"\
    4 1165 exit 218 after 5\n\
    4 1185 line 5\n\
    4 1115 line 5\n\
    4 1125 line 5\n\
    4 11i5 line 5\n\
    4 1145 line 5\n\
    4 11k5 line 5\n\
    4 1155 line 5\n\
    5 11414 exit 3 after 3\n\
    5 11114 line 5\n\
    5 11214 line 5\n\
    5 11i14 line 5\n\
    5 11314 line 5\n\
    5 11k14 line 5\n\
    5 11614 line 5\n\
    5 11424 line 6\n\
    5 114i4 line 6\n\
    5 11434 line 6\n\
    5 11444 line 6\n\
    5 114k4 line 6\n\
    5 11411 line 7\n\
    5 11412 line 7\n\
    5 1141i line 7\n\
    5 11413 line 7\n\
    5 1141k line 7\n\
    5 11416 line 7\n\
    6 1114164115 exit 247 after 15\n\
    6 1114184115 line 8\n\
    6 1114114115 line 8\n\
    6 1114124115 line 8\n\
    6 11141i4115 line 8\n\
    6 1114144115 line 8\n\
    6 11141k4115 line 8\n\
    6 1114154115 line 8\n\
    7 11145 exit 0 after 6\n\
    7 11115 line 6\n\
    7 11125 line 6\n\
    7 111i5 line 6\n\
    7 11135 line 6\n\
    7 111k5 line 6\n\
    7 11165 line 6\n\
    8 1411k1152555 exit 1 after 11\n\
    8 1411k1152515 line 13\n\
    8 1411k1152525 line 13\n\
    8 1411k11525i5 line 13\n\
    8 1411k1152545 line 13\n\
    8 1411k11525k5 line 13\n\
    8 1411k1152575 line 13\n\
    9 1411k1152515 exit 1 after 11\n";

#[test]
fn places_system_calls(rt: HostRuntime) {
    assert_eq!(rt;
        first_wrong(
            rt.alloc(),
            listed_programs(),
            "rvcfi-map 1",
            0x4000_0040,
            LINES,
            49
        ),
        ""
    );
}
