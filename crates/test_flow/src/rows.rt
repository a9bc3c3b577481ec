//! Programs with what is told of each, worked out by hand: a row has a name that says what it shows, the words of code,
//! symbols, relocations, what is asked and what is told.

/// Programs by themselves: which places are taken, which of them sites reach, and the classes of these.
pub(crate) static REACHED: &[u8] = b"\
    a call reaches the functions whose addresses are taken|\
    FF010113 00113423 000002B7 0002B283 000280E7 00813083 01010113 00008067 00100513 00008067 00200513 00008067|\
    main,FUNC,1,0,32 f,FUNC,1,32,8 g,FUNC,1,40,8 ptr,OBJECT,2,0,16|\
    1,8,HI20,ptr,0 1,12,LO12_I,ptr,0 2,0,64,f,0 2,8,64,g,0|none|taken 8 10, call 4 to 8 10 in 0, 0 has 8 10\n\
    a jump reaches taken places inside its function, not that at its value and size|\
    00028067 00000013 00000013 00008067 00000013 00008067|f,FUNC,1,0,16|2,0,64,f,4 2,8,64,f,12 2,16,64,f,16|\
    none|taken 1 3 4, jump 0 to 1 3 in 0, 0 has 1 3\n\
    a jump in no function reaches functions alone|\
    00028067 00000013 00000013 00008067|g,FUNC,1,8,8|2,0,64,g,0 2,8,64,g,-4|none|\
    taken 1 2, jump 0 to 2 in 0, 0 has 2\n\
    a function covers a jump at its value, not at its value and size|\
    00028067 00000013 00028067 00008067|f,FUNC,1,0,8|2,0,64,f,4|none|\
    taken 1, jump 0 to 1 in 0, jump 2 to in none, 0 has 1\n\
    a size that is no multiple of 4 covers an instruction in part|\
    00000013 00000013 00028067 00028067 00008067|f,FUNC,1,0,9|2,0,64,f,4|none|\
    taken 1, jump 2 to 1 in 0, jump 3 to in none, 0 has 1\n\
    a section's end is a place that is never taken|\
    00028067 00000013|f,FUNC,1,0,100|2,0,64,f,8 2,8,64,f,4|none|taken 1, jump 0 to 1 in 0, 0 has 1\n\
    a jump in two functions reaches places inside either, and joins their classes|\
    00028067 00000013 00000013 00028067 00000013 00028067 00000013 00008067|a,FUNC,1,0,16 b,FUNC,1,8,16|\
    2,0,64,a,4 2,8,64,a,16 2,16,64,a,24|none|\
    taken 1 4 6, jump 0 to 1 in 0, jump 3 to 1 4 in 0, jump 5 to 4 in 0, 0 has 1 4\n\
    a jump in a function inside another reaches places of the outer one|\
    00028067 00000013 00028067 00008067 00000013 00008067|outer,FUNC,1,0,24 inner,FUNC,1,8,8|\
    2,0,64,outer,4 2,8,64,outer,16|none|taken 1 4, jump 0 to 1 4 in 0, jump 2 to 1 4 in 0, 0 has 1 4\n\
    a function of size 0 covers nothing, and begins where it stands|\
    00028067 00000013 00008067|f,FUNC,1,0,0|2,0,64,f,0 2,8,64,f,4|none|taken 0 1, jump 0 to 0 in 0, 0 has 0\n\
    a function of the largest size covers all that is after it|\
    00008067 00028067 00000013|f,FUNC,1,4,18446744073709551615|2,0,64,f,4|none|\
    taken 2, jump 1 to 2 in 0, 0 has 2\n\
    two sites that share one target are of one class|\
    00028067 00000013 00028067 00000013 00008067|f,FUNC,1,0,8 h,FUNC,1,8,8 g,FUNC,1,16,4|\
    2,0,64,f,4 2,8,64,h,4 2,16,64,g,0|none|taken 1 3 4, jump 0 to 1 4 in 0, jump 2 to 3 4 in 0, 0 has 1 3 4\n\
    two sites without a common target are of two classes|\
    00028067 00000013 00028067 00000013 00008067|f,FUNC,1,0,8 h,FUNC,1,8,8 g,FUNC,1,16,4|2,0,64,f,4 2,8,64,h,4|\
    none|taken 1 3, jump 0 to 1 in 0, jump 2 to 3 in 1, 0 has 1, 1 has 3\n\
    sites in functions that overlap are of one class, each by a target in common with the next|\
    00028067 00000013 00000013 00000013 00028067 00000013 00000013 00000013 00028067 00000013 00008067|\
    a,FUNC,1,0,16 b,FUNC,1,8,24 c,FUNC,1,24,20|2,0,64,a,12 2,8,64,a,28 2,16,64,a,36|none|\
    taken 3 7 9, jump 0 to 3 in 0, jump 4 to 3 7 in 0, jump 8 to 7 9 in 0, 0 has 3 7 9\n\
    sites in functions that overlap where no place is taken are of two classes|\
    00028067 00000013 00000013 00000013 00028067 00000013 00008067|a,FUNC,1,0,16 b,FUNC,1,8,20|\
    2,0,64,a,4 2,8,64,a,20|none|taken 1 5, jump 0 to 1 in 0, jump 4 to 5 in 1, 0 has 1, 1 has 5\n\
    a call between jumps in two functions is of their class|\
    00028067 00000013 000280E7 00028067 00000013 00008067|f,FUNC,1,0,8 h,FUNC,1,12,8 g,FUNC,1,20,4|\
    2,0,64,f,4 2,8,64,h,4 2,16,64,g,0|none|\
    taken 1 4 5, jump 0 to 1 5 in 0, call 2 to 5 in 0, jump 3 to 4 5 in 0, 0 has 1 4 5\n\
    a site without targets has no class|\
    000280E7 00008067|main,NOTYPE,1,0,0||none|taken, call 0 to in none\n\
    a call does not reach a taken place where no function begins|\
    000280E7 00000013 00028067 00008067|main,FUNC,1,0,16|2,0,64,main,4|none|\
    taken 1, call 0 to in none, jump 2 to 1 in 0, 0 has 1\n\
    relocations that take addresses|\
    000002B7 00000297 00028067 00008067 00008067 00008067 00008067 00008067 00008067 00008067|t,FUNC,1,0,40|\
    1,0,HI20,t,16 1,4,PCREL_HI20,t,20 2,0,32,t,24 2,8,64,t,28 2,16,ADD32,t,32 2,24,ADD64,t,36|none|\
    taken 4 5 6 7 8 9, jump 2 to 4 5 6 7 8 9 in 0, 0 has 4 5 6 7 8 9\n\
    relocations and direct targets that take none|\
    00028293 00A2B023 00028067 0000006F 00000063 00000097 000080E7 008000EF 00008067 00008067 00008067 00008067\
    \x2000008067|\
    t,FUNC,1,0,52|\
    1,0,LO12_I,t,36 1,4,LO12_S,t,40 1,12,JAL,t,44 1,16,BRANCH,t,48 1,20,CALL_PLT,t,36 1,20,RELAX,t,40\
    \x202,0,SUB32,t,36 2,8,SUB64,t,40 2,16,ADD8,t,44 2,17,SUB8,t,48 2,18,ADD16,t,36 2,20,SUB16,t,40 2,24,NONE,t,44|\
    none|taken, jump 2 to in none\n\
    the low part of a distance takes no address, its high part does|\
    00000297 00028293 000280E7 00008067 00008067|label,NOTYPE,1,0,0 f,FUNC,1,16,4|\
    1,0,PCREL_HI20,f,0 1,4,PCREL_LO12_I,label,0|none|taken 4, call 2 to 4 in 0, 0 has 4\n\
    a function inside a pair begins nowhere, but covers what is after it|\
    00000097 000080E7 00028067 00000013 00000013 00008067|t,NOTYPE,1,0,0 mid,FUNC,1,4,12|\
    1,0,CALL,t,20 2,0,64,t,12 2,8,64,t,16|none|taken 2 3, jump 1 to 2 in 0, 0 has 2\n\
    a function at a section's end begins nowhere|\
    000280E7 00028067|e,FUNC,1,8,8|2,0,64,e,0|none|taken, call 0 to in none, jump 1 to in none\n\
    functions in data and absolute ones are none in code, and what points there takes no place|\
    00028067 00000013 00008067|d,FUNC,2,0,32 a,FUNC,65521,0,32 t,NOTYPE,1,0,0|2,0,64,t,4 2,8,64,d,8 2,16,64,a,8|\
    none|taken 1, jump 0 to in none\n\
    a place is a function's by any of its symbols|\
    000280E7 00008067 00008067|g,NOTYPE,1,4,0 f,FUNC,1,4,4|2,0,64,g,0 2,8,64,g,4|none|\
    taken 1 2, call 0 to 1 in 0, 0 has 1\n\
    a return is no site, with an offset a jump is|\
    00008067 00428067 FFC280E7|t,NOTYPE,1,0,0||none|taken, jump 1 to in none, call 2 to in none\n\
    the address of a pair|\
    00028067 00000097 000080E7 00008067|f,FUNC,1,0,16|1,4,CALL_PLT,f,12 2,0,64,f,4|none|\
    taken 1, jump 0 to 1 in 0, 0 has 1\n\
    pairs are no sites|\
    00000317 00030067 00000097 000080E7 00008067|t,NOTYPE,1,0,0|1,0,CALL,t,16 1,8,CALL_PLT,t,0|none|taken\n\
    a call and a jump of one class|\
    000280E7 00028067 00008067|f,FUNC,1,8,4|2,0,64,f,0|none|taken 2, call 0 to 2 in 0, jump 1 to 2 in 0, 0 has 2\n\
    a jump reaches the function that it begins, whose address is taken twice|\
    00028067|f,FUNC,1,0,4|2,0,64,f,0 2,8,64,f,0|none|taken 0, jump 0 to 0 in 0, 0 has 0\n\
";

/// Programs under policies, of which each two lines have a `;` between them; lines count from 2, a list of system calls among
/// them.
pub(crate) static POLICIES: &[u8] = b"\
    narrows|\
    FF010113 00113423 000002B7 0002B283 000280E7 00813083 01010113 00008067 00100513 00008067 00200513 00008067|\
    main,FUNC,1,0,32 f,FUNC,1,32,8 g,FUNC,1,40,8 ptr,OBJECT,2,0,16|\
    1,8,HI20,ptr,0 1,12,LO12_I,ptr,0 2,0,64,f,0 2,8,64,g,0|site main+10 f+0|\
    taken 8 10, call 4 to 8 in 0, 0 has 8\n\
    names no site|\
    FF010113 00113423 000002B7 0002B283 000280E7 00813083 01010113 00008067 00100513 00008067 00200513 00008067|\
    main,FUNC,1,0,32 f,FUNC,1,32,8 g,FUNC,1,40,8 ptr,OBJECT,2,0,16|\
    1,8,HI20,ptr,0 1,12,LO12_I,ptr,0 2,0,64,f,0 2,8,64,g,0|site main+14 f+0|Policy 2\n\
    has a list of system calls|\
    FF010113 00113423 000002B7 0002B283 000280E7 00813083 01010113 00008067 00100513 00008067 00200513 00008067|\
    main,FUNC,1,0,32 f,FUNC,1,32,8 g,FUNC,1,40,8 ptr,OBJECT,2,0,16|\
    1,8,HI20,ptr,0 1,12,LO12_I,ptr,0 2,0,64,f,0 2,8,64,g,0|calls 64 93;site main+10 f+0|\
    taken 8 10, call 4 to 8 in 0, 0 has 8, calls 64 93\n\
    has a list of system calls alone|\
    00028067|f,FUNC,1,0,4|2,0,64,f,0 2,8,64,f,0|calls 0 1 2 3 4 5 6 2047|\
    taken 0, jump 0 to 0 in 0, 0 has 0, calls 0 1 2 3 4 5 6 2047\n\
    names no site after a list of system calls|\
    FF010113 00113423 000002B7 0002B283 000280E7 00813083 01010113 00008067 00100513 00008067 00200513 00008067|\
    main,FUNC,1,0,32 f,FUNC,1,32,8 g,FUNC,1,40,8 ptr,OBJECT,2,0,16|\
    1,8,HI20,ptr,0 1,12,LO12_I,ptr,0 2,0,64,f,0 2,8,64,g,0|calls 64;site main+10 f+0;site main+14 f+0|Policy 4\n\
    widens to a place that is not taken|\
    000280E7 00008067 00100513 00008067 00200513 00008067|main,FUNC,1,0,8 f,FUNC,1,8,8 g,FUNC,1,16,8|\
    2,0,64,f,0 2,8,64,g,0|site main+0 f+4|taken 2 4, call 0 to 3 in 0, 0 has 3\n\
    replaces what a jump reaches|\
    00028067 00000013 00008067|f,FUNC,1,0,12|2,0,64,f,4|site f+0 f+8|taken 1, jump 0 to 2 in 0, 0 has 2\n\
    goes from a site to itself|\
    000280E7 00008067 00100513 00008067 00200513 00008067|main,FUNC,1,0,8 f,FUNC,1,8,8 g,FUNC,1,16,8|\
    2,0,64,f,0 2,8,64,g,0|site main+0 main+0|taken 2 4, call 0 to 0 in 0, 0 has 0\n\
    leaves a site without targets|\
    000280E7 00008067 00100513 00008067 00200513 00008067|main,FUNC,1,0,8 f,FUNC,1,8,8 g,FUNC,1,16,8|\
    2,0,64,f,0 2,8,64,g,0|site main+0|taken 2 4, call 0 to in none\n\
    has digits of either case, and a target twice|\
    000280E7 00008067 00100513 00008067 00200513 00008067|main,FUNC,1,0,8 f,FUNC,1,8,8 g,FUNC,1,16,8|\
    2,0,64,f,0 2,8,64,g,0|site main+0 main+C main+c|taken 2 4, call 0 to 3 in 0, 0 has 3\n\
    has targets in any order|\
    000280E7 000280E7 000280E7 00008067 00008067 00008067 00008067 00008067|t,NOTYPE,1,0,0||\
    site t+0 t+14 t+10 t+14|taken, call 0 to 4 5 in 0, call 1 to in none, call 2 to in none, 0 has 4 5\n\
    has lines in any order|\
    000280E7 000280E7 000280E7 00008067 00008067 00008067 00008067 00008067|t,NOTYPE,1,0,0||\
    site t+8 t+10;site t+0 t+14|taken, call 0 to 5 in 1, call 1 to in none, call 2 to 4 in 0, 0 has 4, 1 has 5\n\
    makes a chain of three sites|\
    000280E7 000280E7 000280E7 00008067 00008067 00008067 00008067 00008067|t,NOTYPE,1,0,0||\
    site t+0 t+10 t+14;site t+4 t+18 t+1c;site t+8 t+14 t+18|\
    taken, call 0 to 4 5 in 0, call 1 to 6 7 in 0, call 2 to 5 6 in 0, 0 has 4 5 6 7\n\
    joins what a site without a line reaches|\
    000280E7 000280E7 00008067 00008067|t,NOTYPE,1,0,0 f,FUNC,1,8,4|2,0,64,f,0|site t+0 f+0 t+c|\
    taken 2, call 0 to 2 3 in 0, call 1 to 2 in 0, 0 has 2 3\n\
    names a symbol with a plus|\
    000280E7 00008067 00100513 00008067 00200513 00008067|\
    a+b,NOTYPE,1,0,0 main,FUNC,1,0,8 f,FUNC,1,8,8 g,FUNC,1,16,8|2,0,64,f,0 2,8,64,g,0|site a+b+0 f+0|\
    taken 2 4, call 0 to 2 in 0, 0 has 2\n\
    names a site twice|\
    000280E7 00008067 00100513 00008067 00200513 00008067|main,FUNC,1,0,8 f,FUNC,1,8,8 g,FUNC,1,16,8|\
    2,0,64,f,0 2,8,64,g,0|site main+0 f+0;site main+0 g+0|Policy 3\n\
    names a site twice by two names|\
    000280E7 00008067 00100513 00008067 00200513 00008067|\
    top,NOTYPE,1,0,0 main,FUNC,1,0,8 f,FUNC,1,8,8 g,FUNC,1,16,8|2,0,64,f,0 2,8,64,g,0|\
    site main+0 f+0;site top+0 f+0|Policy 3\n\
    names a pair|\
    00000097 000080E7 000280E7 00008067|t,NOTYPE,1,0,0|1,0,CALL_PLT,t,12|site t+8 t+0|\
    taken, call 1 to 0 in 0, 0 has 0\n\
    names a target inside a pair|\
    00000097 000080E7 000280E7 00008067|t,NOTYPE,1,0,0|1,0,CALL_PLT,t,12|site t+8 t+4|Policy 2\n\
    names a site inside a pair|\
    00000097 000080E7 000280E7 00008067|t,NOTYPE,1,0,0|1,0,CALL_PLT,t,12|site t+4 t+0|Policy 2\n\
    names a pair as a site|\
    00000097 000080E7 000280E7 00008067|t,NOTYPE,1,0,0|1,0,CALL_PLT,t,12|site t+0 t+8|Policy 2\n\
    names a site by no symbol|\
    000280E7 00008067 00100513 00008067 00200513 00008067|main,FUNC,1,0,8 f,FUNC,1,8,8 g,FUNC,1,16,8|\
    2,0,64,f,0 2,8,64,g,0|site nain+0 f+0|Policy 2\n\
    names a target by no symbol|\
    000280E7 00008067 00100513 00008067 00200513 00008067|main,FUNC,1,0,8 f,FUNC,1,8,8 g,FUNC,1,16,8|\
    2,0,64,f,0 2,8,64,g,0|site main+0 f+0 h+0|Policy 2\n\
    names an undefined symbol before the defined one|\
    000280E7 00008067 00100513 00008067 00200513 00008067|main,FUNC,1,0,8 f,NOTYPE,0,0,0 f,FUNC,1,8,8|\
    2,0,64,main,8|site main+0 f+0|Policy 2\n\
    names a file's symbol before the function's|\
    000280E7 00008067 00100513 00008067 00200513 00008067|main,FILE,65521,0,0 main,FUNC,1,0,8 f,FUNC,1,8,8|\
    2,0,64,f,0|site main+0 f+0|Policy 2\n\
    names data|\
    000280E7 00008067 00100513 00008067 00200513 00008067|\
    main,FUNC,1,0,8 f,FUNC,1,8,8 g,FUNC,1,16,8 ptr,OBJECT,2,0,16|2,0,64,f,0 2,8,64,g,0|site main+0 ptr+0|\
    Policy 2\n\
    names an end as a target|\
    000280E7 00008067 00100513 00008067 00200513 00008067|main,FUNC,1,0,8 f,FUNC,1,8,8 g,FUNC,1,16,8|\
    2,0,64,f,0 2,8,64,g,0|site main+0 main+18|Policy 2\n\
    names an end as a site|\
    000280E7 00008067 00100513 00008067 00200513 00008067|main,FUNC,1,0,8 f,FUNC,1,8,8 g,FUNC,1,16,8|\
    2,0,64,f,0 2,8,64,g,0|site main+18 f+0|Policy 2\n\
    names the middle of an instruction|\
    000280E7 00008067 00100513 00008067 00200513 00008067|main,FUNC,1,0,8 f,FUNC,1,8,8 g,FUNC,1,16,8|\
    2,0,64,f,0 2,8,64,g,0|site main+0 f+2|Policy 2\n\
    names what is far outside|\
    000280E7 00008067 00100513 00008067 00200513 00008067|main,FUNC,1,0,8 f,FUNC,1,8,8 g,FUNC,1,16,8|\
    2,0,64,f,0 2,8,64,g,0|site main+0 g+ffffffff|Policy 2\n\
    has its first wrong line in the middle|\
    000280E7 000280E7 000280E7 00008067 00008067 00008067 00008067 00008067|t,NOTYPE,1,0,0||\
    site t+0 t+10;site t+4 t+20;site t+c|Policy 3\n\
";

/// Programs with two sections of code. The places of section 3 come after the end of section 1.
pub(crate) static SECTIONS: &[u8] = b"\
    calls of both reach a function of one|\
    000280E7 00008067/00008067 000280E7 00008067|main,FUNC,1,0,8 f,FUNC,3,0,4|2,0,64,f,0|none|\
    taken 3, call 0 to 3 in 0, call 4 to 3 in 0, 0 has 3\n\
    a function covers its own section alone|\
    00028067 00000013/00028067 00000013|f,FUNC,1,0,100 u,NOTYPE,3,0,0|2,0,64,f,4 2,8,64,u,4|none|\
    taken 1 4, jump 0 to 1 in 0, jump 3 to in none, 0 has 1\n\
    code of one takes an address of the other|\
    00008067/000002B7 000280E7 00008067|f,FUNC,1,0,4|3,0,HI20,f,0|none|taken 0, call 3 to 0 in 0, 0 has 0\n\
    an empty section has its end alone|\
    /000280E7 00008067|e,FUNC,1,0,0|2,0,64,e,0|none|taken, call 1 to in none\n\
    a policy goes between them|\
    000280E7 00008067/00008067 000280E7|t,NOTYPE,1,0,0 u,NOTYPE,3,0,0||site u+4 t+4;site t+0 u+0|\
    taken, call 0 to 3 in 1, call 4 to 1 in 0, 0 has 1, 1 has 3\n\
    a policy names no place past a section's end|\
    000280E7 00008067/00008067 000280E7|t,NOTYPE,1,0,0||site t+0 t+c|Policy 2\n\
";

/// The place at which a program is entered by a name, and the labels that a program has.
pub(crate) static ASKED: &[u8] = b"\
    a function|\
    00008067|main,FUNC,1,0,4||enter main|0\n\
    a symbol of no type|\
    00008067 00008067|main,NOTYPE,1,4,0||enter main|1\n\
    after a pair|\
    00000097 000080E7 00008067|main,FUNC,1,8,4|1,0,CALL_PLT,main,0|enter main|1\n\
    in the second section of code|\
    00008067/00008067 00008067|main,FUNC,3,4,4||enter main|3\n\
    no symbol has the name|\
    00008067|main,FUNC,1,0,4||enter nain|none\n\
    a name begins as the name does|\
    00008067|mainly,FUNC,1,0,4||enter main|none\n\
    an empty name|\
    00008067|,FUNC,1,0,4||enter |none\n\
    a section's end|\
    00008067|main,FUNC,1,4,4||enter main|none\n\
    inside a pair|\
    00000097 000080E7 00008067|t,NOTYPE,1,0,0 main,FUNC,1,4,4|1,0,CALL_PLT,t,8|enter main|none\n\
    the middle of an instruction|\
    00008067|main,FUNC,1,2,2||enter main|none\n\
    data|\
    00008067|main,FUNC,2,0,4||enter main|none\n\
    an absolute symbol|\
    00008067|main,FUNC,65521,0,4||enter main|none\n\
    an undefined symbol before the defined one|\
    00008067|main,NOTYPE,0,0,0 main,FUNC,1,0,4||enter main|none\n\
    a file's symbol before the function's|\
    00008067|main,FILE,65521,0,0 main,FUNC,1,0,4||enter main|none\n\
    the first of two functions|\
    00008067 00008067|main,FUNC,1,4,4 main,FUNC,1,0,4||enter main|1\n\
    labels in their order, each as often as it is loaded|\
    00005037 00001037 00001137 00005037 FFFFF037 00008067|t,NOTYPE,1,0,0||labels|labels 5 1 5 1048575\n\
    no labels|\
    00008067|t,NOTYPE,1,0,0||labels|labels\n\
";

/// Programs whose callees save sites: how many bytes the lead of each place has, and the places of leaves. The words were worked out by hand
/// beside their code: a lead of 24 bytes saves, one of 32 has the gate of computed calls too, one of 4 is the gate of computed jumps.
pub(crate) static LEADS: &[u8] = b"\
    an entry that is a leaf|\
    00008067|main,FUNC,1,0,4||\
    leads main|leads 0 0, leaves 0\n\
    an entry that saves|\
    FF010113 00113423 00813083 01010113 00008067|main,FUNC,1,0,20||\
    leads main|leads 24 0 0 0 0 0, leaves\n\
    a place that goes on into an entry that saves|\
    FF010113 00113423 010000EF 00813083 01010113 00250513 00150513 00008067|main,FUNC,1,0,32||\
    leads main|leads 24 0 0 0 0 0 24 0 0, leaves\n\
    a leaf with a return of its own and a jump back as its last place|\
    00100513 00050463 00008067 FF9FF06F|main,FUNC,1,0,16||\
    leads main|leads 0 0 0 0 0, leaves 0 1 2 3\n\
    a leaf with a loop to its first place and a system call|\
    FFF50513 FE051EE3 00000073 00008067|main,FUNC,1,0,16||\
    leads main|leads 0 0 0 0 0, leaves 0 1 2 3\n\
    no leaf has LUI to x0|\
    00001037 00008067|main,FUNC,1,0,8||\
    leads main|leads 24 0 0, leaves\n\
    nor another write of x1|\
    00008093 00008067|main,FUNC,1,0,8||\
    leads main|leads 24 0 0, leaves\n\
    nor may it go on behind its last place|\
    00008067 00000013|main,FUNC,1,0,8||\
    leads main|leads 24 0 0, leaves\n\
    nor stop there|\
    00100073|main,FUNC,1,0,4||\
    leads main|leads 24 0, leaves\n\
    a leaf that is called|\
    008000EF 00008067 00000293 00008067|main,FUNC,1,0,16||\
    leads main|leads 24 0 0 0 0, leaves 2 3\n\
    a branch over a jump that is an entry|\
    00050463 0040006F 00008067 FF9FF0EF 00008067|main,FUNC,1,0,20||\
    leads main|leads 24 24 0 0 0 0, leaves\n\
    a leaf in another section|\
    000000EF 00008067/00000513 00008067|main,FUNC,1,0,8 g,FUNC,3,0,8|1,0,JAL,g,0|\
    leads main|leads 24 0 0 0 0 0, leaves 3 4\n\
    no leaf is in two sections|\
    000000EF 00008067 00000513/00008067|main,FUNC,1,0,8 g,FUNC,1,8,4|1,0,JAL,g,0|\
    leads main|leads 24 0 24 0 0 0, leaves\n\
    targets of computed calls|\
    FF010113 00113423 000002B7 0002B283 000280E7 00813083 01010113 00008067 00100513 00008067 00200513 00008067|main,FUNC,1,0,32 f,FUNC,1,32,8 g,FUNC,1,40,8 ptr,OBJECT,2,0,16|1,8,HI20,ptr,0 1,12,LO12_I,ptr,0 2,0,64,f,0 2,8,64,g,0|\
    leads main|leads 24 0 0 0 0 0 0 0 32 0 32 0 0, leaves\n\
    targets of calls and jumps|\
    000002B7 0002B283 00028067 00100513 00008067 00200513 00008067 000280E7 00008067|main,FUNC,1,0,12 f,FUNC,1,12,8 g,FUNC,1,20,8 h,FUNC,1,28,8 ptr,OBJECT,2,0,16|1,0,HI20,ptr,0 1,4,LO12_I,ptr,0 2,0,64,f,0 2,8,64,g,0|\
    leads main|leads 24 0 0 32 0 32 0 0 0 0, leaves\n\
    a target of jumps alone beside one of both|\
    000002B7 0002B283 00028067 00100513 00008067 00200513 00008067 000280E7 00008067|main,FUNC,1,0,12 f,FUNC,1,12,8 g,FUNC,1,20,8 h,FUNC,1,28,8 ptr,OBJECT,2,0,16|1,0,HI20,ptr,0 1,4,LO12_I,ptr,0 2,0,64,f,0 2,8,64,g,0|\
    leads main;site h+0 g+0|leads 24 0 0 4 0 32 0 0 0 0, leaves\n\
    targets of jumps alone|\
    00028067 00000013 00000013 00008067 00000013 00008067|f,FUNC,1,0,16|2,0,64,f,4 2,8,64,f,12 2,16,64,f,16|\
    leads f|leads 24 4 0 4 0 0 0, leaves\n\
    what is entered elsewhere|\
    00028067 00000013 00000013 00008067 00000013 00008067|f,FUNC,1,0,16 g,FUNC,1,16,8|2,0,64,f,4|\
    leads g|leads 0 4 0 0 0 0 0, leaves 4 5\n\
";

/// Programs by themselves and under policies, where calls and jumps have classes of their own: those of calls come first.
pub(crate) static SPLIT: &[u8] = b"\
    a function that is called and jumped to is in a class of each|\
    000002B7 0002B283 00028067 00100513 00008067 00200513 00008067 000280E7 00008067|\
    main,FUNC,1,0,12 f,FUNC,1,12,8 g,FUNC,1,20,8 h,FUNC,1,28,8 ptr,OBJECT,2,0,16|\
    1,0,HI20,ptr,0 1,4,LO12_I,ptr,0 2,0,64,f,0 2,8,64,g,0|site h+0 g+0|\
    taken 3 5, jump 2 to 3 5 in 1, call 7 to 5 in 0, 0 has 5, 1 has 3 5\n\
    the classes of calls and of jumps may be the same|\
    000002B7 0002B283 00028067 00100513 00008067 00200513 00008067 000280E7 00008067|\
    main,FUNC,1,0,12 f,FUNC,1,12,8 g,FUNC,1,20,8 h,FUNC,1,28,8 ptr,OBJECT,2,0,16|\
    1,0,HI20,ptr,0 1,4,LO12_I,ptr,0 2,0,64,f,0 2,8,64,g,0|none|\
    taken 3 5, jump 2 to 3 5 in 1, call 7 to 3 5 in 0, 0 has 3 5, 1 has 3 5\n\
    a call between jumps joins none of them|\
    00028067 00000013 000280E7 00028067 00000013 00008067|\
    f,FUNC,1,0,8 h,FUNC,1,12,8 g,FUNC,1,20,4|\
    2,0,64,f,4 2,8,64,h,4|none|\
    taken 1 4, jump 0 to 1 in 0, call 2 to in none, jump 3 to 4 in 1, 0 has 1, 1 has 4\n\
    jumps that share a target are of one class, beside that of a call to it|\
    00028067 00000013 000280E7 00028067 00000013 00008067|\
    f,FUNC,1,0,8 h,FUNC,1,12,8 g,FUNC,1,20,4|\
    2,0,64,f,4 2,8,64,h,4 2,16,64,g,0|none|\
    taken 1 4 5, jump 0 to 1 5 in 1, call 2 to 5 in 0, jump 3 to 4 5 in 1, 0 has 5, 1 has 1 4 5\n\
    a call to both targets of two jumps leaves these apart|\
    00028067 00028067 000280E7 00008067 00008067|\
    main,FUNC,1,0,12 f,FUNC,1,12,4 g,FUNC,1,16,4|\
    2,0,64,f,0 2,8,64,g,0|site main+0 f+0;site main+4 g+0|\
    taken 3 4, jump 0 to 3 in 1, jump 1 to 4 in 2, call 2 to 3 4 in 0, 0 has 3 4, 1 has 3, 2 has 4\n\
    a jump to both targets of two calls leaves these apart|\
    000280E7 000280E7 00028067 00008067 00008067|\
    main,FUNC,1,0,12 f,FUNC,1,12,4 g,FUNC,1,16,4|\
    2,0,64,f,0 2,8,64,g,0|site main+0 g+0;site main+4 f+0|\
    taken 3 4, call 0 to 4 in 1, call 1 to 3 in 0, jump 2 to 3 4 in 2, 0 has 3, 1 has 4, 2 has 3 4\n\
    sites without targets have no class, of either sort|\
    000280E7 00028067 00008067|\
    main,FUNC,1,0,12|\
    |none|\
    taken, call 0 to in none, jump 1 to in none\n\
    a call without targets beside a jump with some|\
    000280E7 00028067 00000013 00008067|\
    main,FUNC,1,0,16|\
    2,0,64,main,8|none|\
    taken 2, call 0 to in none, jump 1 to 2 in 0, 0 has 2\n\
    two calls without a common target stand before a jump's class|\
    000280E7 000280E7 00028067 00008067 00008067|\
    main,FUNC,1,0,12 f,FUNC,1,12,4 g,FUNC,1,16,4|\
    2,0,64,f,0 2,8,64,g,0|site main+0 f+0;site main+4 g+0;site main+8|\
    taken 3 4, call 0 to 3 in 0, call 1 to 4 in 1, jump 2 to in none, 0 has 3, 1 has 4";
