//! The programs that five objects written by hand are: a line for each place with its section, offset, kind and word
//! (of a pair that of its JALR), the place that a direct transfer goes to, and whether its address is taken; a line for
//! each function with its section, offset and size; the bytes of initialised data and where all data end.

pub(crate) static B_TEXT: &[u8] = b"\
    1 0 plain 700513\n\
    1 4 return 8067\n\
    1 8 end 0\n\
    data 0 65536\n";

pub(crate) static P_TEXT: &[u8] = b"\
    1 0 plain ff010113\n\
    1 4 store 113423\n\
    1 8 plain 2b7\n\
    1 12 plain 2b283\n\
    1 16 icall 280e7\n\
    1 20 plain 813083\n\
    1 24 plain 1010113\n\
    1 28 return 8067\n\
    1 32 plain 100513 taken\n\
    1 36 return 8067\n\
    1 40 plain 200513 taken\n\
    1 44 return 8067\n\
    1 48 end 0\n\
    function 1 0 32\n\
    function 1 32 8\n\
    function 1 40 8\n\
    data 16 65552\n";

pub(crate) static H_TEXT: &[u8] = b"\
    1 0 plain ff010113\n\
    1 4 store 113423\n\
    1 8 call 80e7 to 7\n\
    1 16 plain 513\n\
    1 20 plain 813083\n\
    1 24 plain 1010113\n\
    1 28 return 8067\n\
    1 32 plain 597\n\
    1 36 plain 58593\n\
    1 40 plain 100513\n\
    1 44 plain 300613\n\
    1 48 plain 4000893\n\
    1 52 system 73\n\
    1 56 return 8067\n\
    1 60 end 0\n\
    function 1 0 32\n\
    function 1 32 28\n\
    data 3 65539\n";

pub(crate) static R_TEXT: &[u8] = b"\
    1 0 plain 2537\n\
    1 4 plain ffe50513\n\
    1 8 jump 40006f to 3\n\
    1 12 branch 50e63 to 10\n\
    1 16 plain ff010113\n\
    1 20 store 113423\n\
    1 24 plain fff50513\n\
    1 28 call ff1ff0ef to 3\n\
    1 32 plain 813083\n\
    1 36 plain 1010113\n\
    1 40 return 8067\n\
    1 44 end 0\n\
    function 1 0 12\n\
    function 1 12 32\n\
    data 0 65536\n";

pub(crate) static T_TEXT: &[u8] = b"\
    1 0 plain 297\n\
    1 4 plain 2b283\n\
    1 8 ijump 28067\n\
    1 12 plain 400513 taken\n\
    1 16 return 8067\n\
    1 20 end 0\n\
    function 1 0 12\n\
    function 1 12 8\n\
    data 8 65544\n";
