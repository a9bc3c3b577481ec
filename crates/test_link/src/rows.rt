//! Objects as one program: a row has a name that says what it shows, the objects by their texts, with `/` between them, what is
//! asked (the name of the entry, and lines of a policy) and what is told. `python3 tests/objects/make_links.py rows` at the top of
//! the repository prints this module: what is told is by an independent model, but for refusals that the model does not have.

/// Which symbol a use of a name is a use of.
#[rattlefmt::skip]
pub(crate) static NAMES: &[u8] = b"\
    a use of a global symbol is one of its definition in another object|code,4,00008067 data,8,0.0;\
    main,GLOBAL,FUNC,1,0,4 x,GLOBAL,NOTYPE,0,0,0;2,0,64,x,0/data,8,5.0;x,GLOBAL,OBJECT,1,0,8;|main|enter 40000040, \
    data 16 10008 5, end 10010\n\
    a definition before its uses|data,8,5.0;x,GLOBAL,OBJECT,1,0,8;/code,4,00008067 data,8,0.0;\
    main,GLOBAL,FUNC,1,0,4 x,GLOBAL,NOTYPE,0,0,0;2,0,64,x,0|main|enter 40000040, data 16 5 10000, end 10010\n\
    each object's uses of a name are of one definition|code,4,00008067 data,8,0.0;main,GLOBAL,FUNC,1,0,4 \
    x,GLOBAL,NOTYPE,0,0,0;2,0,64,x,0/code,4,00008067 data,8,0.0;more,GLOBAL,FUNC,1,0,4 x,GLOBAL,NOTYPE,0,0,0;\
    2,0,64,x,0/data,8,5.0.6.0;y,GLOBAL,OBJECT,1,0,8 x,GLOBAL,OBJECT,1,8,8;|main|enter 40000040, data 32 10018 10018 \
    5 6, end 10020\n\
    an object's own weak definition gives way in its own uses|code,4,00008067 data,8,0.0.1.0;main,GLOBAL,FUNC,1,0,4 \
    x,WEAK,OBJECT,2,8,8;2,0,64,x,0/data,8,5.0;x,GLOBAL,OBJECT,1,0,8;|main|enter 40000040, data 24 10010 1 5, end \
    10018\n\
    a local symbol is no definition for others|code,4,00008067 data,8,0.0;main,GLOBAL,FUNC,1,0,4 \
    x,GLOBAL,NOTYPE,0,0,0;2,0,64,x,0/data,8,5.0;x,LOCAL,OBJECT,1,0,8;|main|Undefined 2 in 1\n\
    uses of a local symbol stay its own|code,4,00008067 data,8,0.0.1.0;main,GLOBAL,FUNC,1,0,4 x,LOCAL,OBJECT,2,8,8;\
    2,0,64,x,0/data,8,5.0;x,GLOBAL,OBJECT,1,0,8;|main|enter 40000040, data 24 10008 1 5, end 10018\n\
    local symbols of one name in two objects|code,4,00008067 data,8,0.0;x,LOCAL,OBJECT,2,0,8 main,GLOBAL,FUNC,1,0,4;\
    2,0,64,x,0/data,8,0.0;x,LOCAL,OBJECT,1,0,8;1,0,64,x,0|main|enter 40000040, data 16 10000 10008, end 10010\n\
    bindings 3, 10, 13 and 15 are as local|code,4,00008067 data,8,0.0.0.0.0.0.0.0;main,GLOBAL,FUNC,1,0,4 \
    x,3,OBJECT,2,4,8 x,10,OBJECT,2,12,8 x,13,OBJECT,2,20,8 x,15,OBJECT,2,28,4;2,0,64,#2,0 2,8,64,#3,0 2,16,64,#4,0 \
    2,24,64,#5,0/data,8,5.0;x,GLOBAL,OBJECT,1,0,8;|main|enter 40000040, data 40 10004 1000c 10014 1001c 5, end \
    10028\n\
    a symbol of binding 10 is no definition for others|code,4,00008067 data,8,0.0;main,GLOBAL,FUNC,1,0,4 \
    x,GLOBAL,NOTYPE,0,0,0;2,0,64,x,0/data,8,5.0;x,10,OBJECT,1,0,8;|main|Undefined 2 in 1\n\
    an undefined symbol of binding 10 has no definition elsewhere|code,4,00008067 data,8,0.0;main,GLOBAL,FUNC,1,0,4 \
    x,10,NOTYPE,0,0,0;2,0,64,x,0/data,8,5.0;x,GLOBAL,OBJECT,1,0,8;|main|Undefined 2 in 1\n\
    symbols without a name are their own, whatever their binding|code,4,00008067 data,8,0.0;main,GLOBAL,FUNC,1,0,4 \
    -,GLOBAL,OBJECT,2,0,8;2,0,64,#2,0/data,8,0.0.0.0;-,GLOBAL,OBJECT,1,4,8 -,WEAK,OBJECT,1,8,8;1,0,64,#1,0 \
    1,8,64,#2,0|main|enter 40000040, data 24 10000 1000c 10010, end 10018\n\
    an undefined one without a name has no definition|code,4,00008067 data,8,0.0;main,GLOBAL,FUNC,1,0,4 \
    -,GLOBAL,NOTYPE,0,0,0;2,0,64,#2,0/data,8,5.0;-,GLOBAL,OBJECT,1,0,8;|main|Undefined 2 in 1\n\
    number 0 is no symbol where it has the fields of a definition|code,4,00008067 data,8,0.0;main,GLOBAL,FUNC,1,0,4 \
    x,GLOBAL,NOTYPE,0,0,0;2,0,64,x,0/data,8,5.0;x,LOCAL,OBJECT,1,0,8;;\
    72,010000001100010000000000000000000000000000000000|main|Undefined 2 in 1\n\
    nor is it a second one, and its uses are the addend|code,4,00008067;main,GLOBAL,FUNC,1,0,4;/code,4,00008067 \
    data,8,0.0;main,LOCAL,FUNC,1,0,4;2,0,64,#0,7;104,010000001200010000000000000000000000000000000000|main|enter \
    40000040, data 8 7, end 10008\n\
    section 0 is none where its header is one of data|code,4,00008067 data,8,0.0;main,GLOBAL,FUNC,1,0,4 \
    x,GLOBAL,NOTYPE,0,0,0;2,0,64,x,0/data,8,5.0;x,GLOBAL,OBJECT,0,0,8;;172,010000000200000000000000|main|Undefined \
    2 in 1\n\
    a global symbol in a section that is not kept gives way to a weak one|code,4,00008067 data,8,0.0;\
    main,GLOBAL,FUNC,1,0,4 x,GLOBAL,NOTYPE,0,0,0;2,0,64,x,0/text,1,5;x,GLOBAL,OBJECT,1,0,4;/note,4,5;\
    x,GLOBAL,OBJECT,1,0,4;/frames,4,5;x,GLOBAL,OBJECT,1,0,4;/data,8,6.0;x,WEAK,OBJECT,1,0,8;|main|enter 40000040, \
    data 16 10008 6, end 10010\n\
    and is no definition where nothing else is one|code,4,00008067 data,8,0.0;main,GLOBAL,FUNC,1,0,4 \
    x,GLOBAL,NOTYPE,0,0,0;2,0,64,x,0/text,1,5;x,GLOBAL,OBJECT,1,0,4;|main|Undefined 2 in 1\n\
    a common gives way to a global absolute symbol|code,4,00008067 data,8,0.0;main,GLOBAL,FUNC,1,0,4 \
    x,GLOBAL,NOTYPE,0,0,0;2,0,64,x,0/;x,GLOBAL,OBJECT,COMMON,64,8;/;x,GLOBAL,NOTYPE,ABS,20480,0;|main|enter \
    40000040, data 8 5000, end 10008\n\
    a weak absolute symbol is the first weak one|code,4,00008067 data,8,0.0;main,GLOBAL,FUNC,1,0,4 \
    x,GLOBAL,NOTYPE,0,0,0;2,0,64,x,0/;x,WEAK,NOTYPE,ABS,20480,0;/data,8,6.0;x,WEAK,OBJECT,1,0,8;|main|enter \
    40000040, data 16 5000 6, end 10010\n\
    a weak common is a common|code,4,00008067 data,8,0.0;main,GLOBAL,FUNC,1,0,4 x,GLOBAL,NOTYPE,0,0,0;2,0,64,x,0/\
    data,8,6.0;x,WEAK,OBJECT,1,0,8;/;x,WEAK,OBJECT,COMMON,32,16;|main|enter 40000040, data 16 10020 6, end 10030\n\
    addends and offsets|code,4,00008067 data,8,0.0;main,GLOBAL,FUNC,1,0,4 x,GLOBAL,NOTYPE,0,0,0;2,0,64,x,-3/\
    data,8,5.0.6.0;x,GLOBAL,OBJECT,1,12,4;|main|enter 40000040, data 24 10011 5 6, end 10018\n\
    sections of data in their order, then those of zeros, then commons|code,4,00008067 data,8,0.0.0.0.0.0.0.0 \
    zeros,16,4;main,GLOBAL,FUNC,1,0,4 z1,GLOBAL,OBJECT,3,0,4 z2,GLOBAL,NOTYPE,0,0,0 c1,GLOBAL,NOTYPE,0,0,0 \
    d2,GLOBAL,NOTYPE,0,0,0;2,0,64,z1,0 2,8,64,z2,0 2,16,64,c1,0 2,24,64,d2,0/zeros,4,12 data,32,1;\
    c1,GLOBAL,OBJECT,COMMON,8,8 z2,GLOBAL,OBJECT,1,0,4 d2,GLOBAL,OBJECT,2,0,4;|main|enter 40000040, data 36 10030 \
    10034 10040 10020 1, end 10048\n";

/// Common blocks: what they are merged to, and which have a place.
#[rattlefmt::skip]
pub(crate) static COMMONS: &[u8] = b"\
    the greatest size and the greatest alignment, at the first symbol's place|code,4,00008067 data,8,0.0.0.0.0.0;\
    main,GLOBAL,FUNC,1,0,4 a,GLOBAL,OBJECT,COMMON,16,8 c,GLOBAL,OBJECT,COMMON,4,4 b,GLOBAL,NOTYPE,0,0,0;2,0,64,a,0 \
    2,8,64,c,0 2,16,64,b,0/;a,GLOBAL,OBJECT,COMMON,4,24 b,GLOBAL,OBJECT,COMMON,0,1;/;b,GLOBAL,OBJECT,COMMON,1,3 \
    a,WEAK,OBJECT,COMMON,2,16;|main|enter 40000040, data 24 10020 10038 1003c, end 1003f\n\
    commons that are not the definition take no place|code,4,00008067 data,8,0.0.0.0;main,GLOBAL,FUNC,1,0,4 \
    a,GLOBAL,OBJECT,COMMON,4096,4096 d,GLOBAL,OBJECT,COMMON,8,8;2,0,64,a,0 2,8,64,d,0/data,8,5.0;\
    a,GLOBAL,OBJECT,1,0,8;/;a,GLOBAL,OBJECT,COMMON,2048,4000;|main|enter 40000040, data 24 10010 10018 5, end \
    10020\n\
    a common has a place though nothing uses it|code,4,00008067;main,GLOBAL,FUNC,1,0,4;/;\
    a,GLOBAL,OBJECT,COMMON,64,100;/;a,GLOBAL,OBJECT,COMMON,128,40;|main|enter 40000040, end 10064\n\
    local ones and those without a name are blocks of their own|code,4,00008067 data,8,0.0.0.0.0.0;\
    main,GLOBAL,FUNC,1,0,4 x,LOCAL,OBJECT,COMMON,8,8 x,GLOBAL,OBJECT,COMMON,8,8 -,GLOBAL,OBJECT,COMMON,8,8;\
    2,0,64,#2,0 2,8,64,#3,0 2,16,64,#4,0/data,8,0.0.0.0;x,LOCAL,OBJECT,COMMON,8,8 x,GLOBAL,OBJECT,COMMON,8,16 \
    -,GLOBAL,OBJECT,COMMON,8,8;1,0,64,#1,0 1,8,64,#3,0|main|enter 40000040, data 40 10028 10030 10040 10048 10050, \
    end 10058\n";

/// What is refused, and what is not though it looks alike.
#[rattlefmt::skip]
pub(crate) static REFUSED: &[u8] = b"\
    a weak undefined symbol that is used|code,4,00008067 data,8,0.0;main,GLOBAL,FUNC,1,0,4 x,WEAK,NOTYPE,0,0,0;\
    2,0,64,x,0|main|Undefined 2 in 1\n\
    the same for a slot|code,4,00000517.00053503.00008067;main,GLOBAL,FUNC,1,0,4 x,WEAK,NOTYPE,0,0,0;\
    1,0,GOT_HI20,x,0 1,4,PCREL_LO12_I,main,0|main|Undefined 2 in 1\n\
    undefined symbols that nothing uses are nothing|code,4,00008067;main,GLOBAL,FUNC,1,0,4;/;x,WEAK,NOTYPE,0,0,0 \
    y,GLOBAL,NOTYPE,0,0,0 z,LOCAL,NOTYPE,0,0,0;|main|enter 40000040, end 10000\n\
    a weak undefined symbol has the weak definition of another object|code,4,00008067 data,8,0.0;\
    main,GLOBAL,FUNC,1,0,4 x,WEAK,NOTYPE,0,0,0;2,0,64,x,0/data,8,5.0;x,WEAK,OBJECT,1,0,8;|main|enter 40000040, data \
    16 10008 5, end 10010\n\
    the least number in an object, whatever the relocations' order|code,4,00008067 data,8,0.0.0.0;\
    main,GLOBAL,FUNC,1,0,4 y,GLOBAL,NOTYPE,0,0,0 x,GLOBAL,NOTYPE,0,0,0;2,0,64,x,0 2,8,64,y,0|main|Undefined 2 in 1\n\
    the first object, though a later one's number is less|code,4,00008067;main,GLOBAL,FUNC,1,0,4;/data,8,0.0;\
    a,LOCAL,NOTYPE,1,0,0 b,LOCAL,NOTYPE,1,0,0 x,GLOBAL,NOTYPE,0,0,0;1,0,64,x,0/data,8,0.0;x,GLOBAL,NOTYPE,0,0,0;\
    1,0,64,x,0|main|Undefined 3 in 2\n\
    the symbol that is named, not another object's of that name|code,4,00008067;main,GLOBAL,FUNC,1,0,4;/;\
    x,GLOBAL,NOTYPE,0,0,0;/data,8,0.0;a,LOCAL,NOTYPE,1,0,0 x,GLOBAL,NOTYPE,0,0,0;1,0,64,x,0|main|Undefined 2 in 3\n\
    an object without sections has a number|code,4,00008067;main,GLOBAL,FUNC,1,0,4;/;;;40,0000000000000000 60,0000/\
    data,8,0.0;x,GLOBAL,NOTYPE,0,0,0;1,0,64,x,0|main|Undefined 1 in 3\n\
    a relocation in the wrong place comes before what is undefined|code,4,00008067 data,8,0.0;\
    main,GLOBAL,FUNC,1,0,4 x,GLOBAL,NOTYPE,0,0,0;2,0,64,x,0/data,8,0.0;y,LOCAL,NOTYPE,1,0,0;1,4,64,y,0|main|\
    RelocPlace 8 4\n\
    a function that two objects define|code,4,00000097.000080e7.00008067.00300513.00008067;main,GLOBAL,FUNC,1,0,12 \
    f,GLOBAL,FUNC,1,12,8;1,0,CALL_PLT,f,0/code,4,00300513.00008067;f,GLOBAL,FUNC,1,0,8;|main|Duplicate f\n\
    two global definitions in one object|code,4,00008067.00008067;main,GLOBAL,FUNC,1,0,4 f,GLOBAL,FUNC,1,0,4 \
    f,GLOBAL,FUNC,1,4,4;|main|Duplicate f\n\
    of names in objects 1 and 2, and 1 and 3, the first|code,4,00008067;main,GLOBAL,FUNC,1,0,4 g,GLOBAL,FUNC,1,0,4 \
    f,GLOBAL,FUNC,1,0,4;/code,4,00008067;f,GLOBAL,FUNC,1,0,4;/code,4,00008067;g,GLOBAL,FUNC,1,0,4;|main|Duplicate \
    f\n\
    of two in one object the first symbol's|code,4,00008067;main,GLOBAL,FUNC,1,0,4 f,GLOBAL,FUNC,1,0,4 \
    g,GLOBAL,FUNC,1,0,4;/code,4,00008067;a,LOCAL,FUNC,1,0,4 g,GLOBAL,FUNC,1,0,4 f,GLOBAL,FUNC,1,0,4;|main|Duplicate \
    g\n\
    a global absolute symbol beside one in a section|code,4,00008067 data,8,0.0;main,GLOBAL,FUNC,1,0,4 \
    x,GLOBAL,NOTYPE,0,0,0;2,0,64,x,0/;x,GLOBAL,NOTYPE,ABS,1,0;/data,8,5.0;x,GLOBAL,OBJECT,1,0,8;|main|Duplicate x\n\
    two global absolute symbols of one value|code,4,00008067 data,8,0.0;main,GLOBAL,FUNC,1,0,4 \
    x,GLOBAL,NOTYPE,0,0,0;2,0,64,x,0/;x,GLOBAL,NOTYPE,ABS,1,0;/;x,GLOBAL,NOTYPE,ABS,1,0;|main|Duplicate x\n\
    a name defined twice comes before what is no instruction|code,4,00000000;main,GLOBAL,FUNC,1,0,4;/\
    code,4,00008067;main,GLOBAL,FUNC,1,0,4;|main|Duplicate main\n\
    and before what is undefined|code,4,00008067 data,8,0.0;main,GLOBAL,FUNC,1,0,4 x,GLOBAL,NOTYPE,0,0,0;2,0,64,x,0/\
    code,4,00008067;main,GLOBAL,FUNC,1,0,4;|main|Duplicate main\n\
    a name that another one begins with, in each other way|code,4,00008067;main,GLOBAL,FUNC,1,0,4 \
    f,GLOBAL,FUNC,1,0,4 go,GLOBAL,FUNC,1,0,4;/code,4,00008067;fo,GLOBAL,FUNC,1,0,4 g,GLOBAL,FUNC,1,0,4 \
    o,GLOBAL,FUNC,1,0,4 F,GLOBAL,FUNC,1,0,4;|main|enter 40000040, end 10000\n\
    local, weak, common and undefined symbols beside a definition|code,4,00008067;main,LOCAL,FUNC,1,0,4 \
    main,GLOBAL,FUNC,1,0,4;/code,4,00008067;main,WEAK,FUNC,1,0,4;/;main,GLOBAL,OBJECT,COMMON,8,8 \
    main,GLOBAL,NOTYPE,0,0,0 main,10,NOTYPE,ABS,0,0;|main|enter 40000040, end 10000\n\
    what is no instruction, by the sections of all|code,4,00008067;main,GLOBAL,FUNC,1,0,4;/;;;40,0000000000000000 \
    60,0000/data,8,0.0 code,4,00000000;f,GLOBAL,FUNC,2,0,4;|main|Undecodable 7 0 0\n\
    an instruction that names a reserved register|code,4,00008067;main,GLOBAL,FUNC,1,0,4;/code,4,00418193.00008067;\
    f,GLOBAL,FUNC,1,0,4;|main|ReservedRegister 6 0\n\
    a transfer into the middle of an instruction of another object|code,4,0000006f.00008067;main,GLOBAL,FUNC,1,0,4 \
    f,GLOBAL,NOTYPE,0,0,0;1,0,JAL,f,2/code,4,00008067;f,GLOBAL,FUNC,1,0,4;|main|BadTransfer 1 0\n\
    a low part whose high part is another object's|code,4,00000517.00008067;main,GLOBAL,FUNC,1,0,8 \
    x,GLOBAL,OBJECT,COMMON,8,8;1,0,PCREL_HI20,x,0/code,4,00050513.00008067;main,GLOBAL,NOTYPE,0,0,0 \
    f,GLOBAL,FUNC,1,0,8;1,0,PCREL_LO12_I,main,0|main|BadPair 7 0\n\
    a type that data do not take|code,4,00008067;main,GLOBAL,FUNC,1,0,4;/data,8,0.0;x,LOCAL,NOTYPE,1,0,0;\
    1,0,GOT_HI20,x,0|main|RelocKind 6 0 20\n\
    a pointer into the middle of an instruction of another object|code,4,00008067 data,8,0.0;main,GLOBAL,FUNC,1,0,4 \
    f,GLOBAL,NOTYPE,0,0,0;2,0,64,f,0/code,4,00008067;f,GLOBAL,FUNC,1,2,2;|main|BadCodePointer 2 0\n\
    an address too far away|code,4,00000537.00008067;main,GLOBAL,FUNC,1,0,8 x,GLOBAL,NOTYPE,0,0,0;1,0,HI20,x,0/;\
    x,GLOBAL,NOTYPE,ABS,4294967296,0;|main|RelocRange 1 0\n";

/// The names of entries and of policies, and where functions begin.
#[rattlefmt::skip]
pub(crate) static ENTRIES: &[u8] = b"\
    a definition, and not a local symbol before it|code,4,00000013.00008067;main,LOCAL,FUNC,1,0,8;/code,4,00008067;\
    main,GLOBAL,FUNC,1,0,4;|main|enter 4000005c, end 10000\n\
    a definition, and not an undefined symbol before it|code,4,00008067;main,GLOBAL,NOTYPE,0,0,0;/code,4,00008067;\
    main,GLOBAL,FUNC,1,0,4;|main|enter 40000058, end 10000\n\
    the strong definition, not the weak one before it|code,4,00008067;main,WEAK,FUNC,1,0,4;/code,4,00008067;\
    main,GLOBAL,FUNC,1,0,4;|main|enter 40000058, end 10000\n\
    the first weak definition|code,4,00008067;a,LOCAL,FUNC,1,0,4;/code,4,00008067;main,WEAK,FUNC,1,0,4;/\
    code,4,00008067;main,WEAK,FUNC,1,0,4;|main|enter 40000058, end 10000\n\
    without a definition the first local symbol|code,4,00000013.00008067;a,LOCAL,FUNC,1,0,8;/code,4,00008067;\
    main,LOCAL,FUNC,1,0,4;/code,4,00008067;main,LOCAL,FUNC,1,0,4;|main|enter 4000005c, end 10000\n\
    which may be of another binding|code,4,00000013.00008067;a,LOCAL,FUNC,1,0,8;/code,4,00008067;main,10,FUNC,1,0,4;\
    /code,4,00008067;main,LOCAL,FUNC,1,0,4;|main|enter 4000005c, end 10000\n\
    which stands for itself though it is undefined|code,4,00008067;main,LOCAL,NOTYPE,0,0,0;/code,4,00008067;\
    main,LOCAL,FUNC,1,0,4;|main|NoEntry\n\
    a global undefined symbol gives way to a local one|code,4,00008067;main,GLOBAL,NOTYPE,0,0,0;/code,4,00008067;\
    main,LOCAL,FUNC,1,0,4;|main|enter 40000058, end 10000\n\
    so does one in a section that is not kept|text,4,00008067;main,GLOBAL,NOTYPE,1,0,0;/code,4,00008067;\
    main,LOCAL,FUNC,1,0,4;|main|enter 40000040, end 10000\n\
    an absolute definition, and no local symbol is looked for|code,4,00008067;main,LOCAL,FUNC,1,0,4;/;\
    main,WEAK,NOTYPE,ABS,0,0;|main|NoEntry\n\
    a common one|code,4,00008067;main,LOCAL,FUNC,1,0,4;/;main,GLOBAL,OBJECT,COMMON,8,8;|main|NoEntry\n\
    one in data|code,4,00008067;main,LOCAL,FUNC,1,0,4;/data,8,0.0;main,GLOBAL,OBJECT,1,0,8;|main|NoEntry\n\
    a section's end|code,4,00008067;main,GLOBAL,FUNC,1,4,0;|main|NoEntry\n\
    number 0 has no name|code,4,00008067;main,GLOBAL,NOTYPE,0,0,0;;\
    72,010000001200010000000000000000000000000000000000|main|NoEntry\n\
    no symbol has an empty name|code,4,00008067;-,LOCAL,FUNC,1,0,4 -,GLOBAL,FUNC,1,0,4;||NoEntry\n\
    a policy's names are definitions|code,4,00008067.00028067;f,LOCAL,FUNC,1,0,4 main,GLOBAL,FUNC,1,4,4;/\
    code,4,00000013.00008067;f,GLOBAL,FUNC,1,4,4;|main site main+0 f+0|enter 40000054, class 00001 40000090, end \
    10000\n\
    without a definition the first local symbol, with an offset|code,4,00028067;main,GLOBAL,FUNC,1,0,4 \
    f,GLOBAL,NOTYPE,0,0,0;/code,4,00000013.00008067;f,LOCAL,FUNC,1,0,8;/code,4,00000013.00008067;f,LOCAL,FUNC,1,0,8;\
    |main site main+0 f+4|enter 40000040, class 00001 4000007c, end 10000\n\
    a policy's name whose definition is a number|code,4,00028067.00008067;f,LOCAL,FUNC,1,4,4 main,GLOBAL,FUNC,1,0,4;\
    /;f,GLOBAL,NOTYPE,ABS,0,0;|main site main+0 f+0|Policy 2\n\
    a policy's name that is a local symbol's which is undefined|code,4,00028067;f,LOCAL,NOTYPE,0,0,0 \
    main,GLOBAL,FUNC,1,0,4;/code,4,00008067;f,LOCAL,FUNC,1,0,4;|main site main+0 f+0|Policy 2\n\
    functions of weak definitions that gave way are starts|code,4,000280e7.00008067 data,8,0.0;\
    main,GLOBAL,FUNC,1,0,8 t,LOCAL,NOTYPE,1,4,0 f,WEAK,FUNC,1,4,4;2,0,64,t,0/code,4,00008067;f,GLOBAL,FUNC,1,0,4;|\
    main|enter 40000040, class 00001 40000090, data 8 40000090, end 10008\n\
    and labels of weak definitions are none|code,4,000280e7.00008067 data,8,0.0;main,GLOBAL,FUNC,1,0,8 \
    t,LOCAL,NOTYPE,1,4,0 f,WEAK,NOTYPE,1,4,4;2,0,64,t,0/code,4,00008067;f,GLOBAL,FUNC,1,0,4;|main|enter 40000040, \
    class 00001, data 8 40000090, end 10008\n\
    a call through a pointer to the function that a name is in another object|code,4,000280e7.00008067 data,8,0.0;\
    main,GLOBAL,FUNC,1,0,8 f,WEAK,FUNC,1,4,4;2,0,64,f,0/code,4,00008067;f,GLOBAL,FUNC,1,0,4;|main|enter 40000040, \
    class 00001 400000a8, data 8 400000a8, end 10008\n\
    jumps reach places of functions of their own object's section|code,4,00028067.00000013.00008067 data,8,0.0;\
    main,GLOBAL,FUNC,1,0,12 t,LOCAL,NOTYPE,1,4,0;2,0,64,t,0/code,4,00028067.00000013.00008067 data,8,0.0;\
    f,GLOBAL,FUNC,1,0,12 t,LOCAL,NOTYPE,1,8,0;2,0,64,t,0|main|enter 40000040, class 00001 40000074, class 00002 \
    400000cc, data 16 40000074 400000cc, end 10010\n";

/// Slots of the table of addresses.
#[rattlefmt::skip]
pub(crate) static SLOTS: &[u8] = b"\
    two names of one place have two slots|code,4,00000517.00053503.00000517.00053503.00008067;\
    main,GLOBAL,FUNC,1,0,4 l1,LOCAL,NOTYPE,1,8,0 f,GLOBAL,NOTYPE,0,0,0 g,GLOBAL,NOTYPE,0,0,0;1,0,GOT_HI20,f,0 \
    1,4,PCREL_LO12_I,main,0 1,8,GOT_HI20,g,0 1,12,PCREL_LO12_I,l1,0/code,4,00008067;f,GLOBAL,FUNC,1,0,4 \
    g,GLOBAL,FUNC,1,0,4;|main|enter 40000040, words c0010517 fc053503 c0010517 fc053503, data 16 40000068 40000068, \
    end 10010\n\
    uses of one name from two objects share a slot|code,4,00000517.00053503.00008067;main,GLOBAL,FUNC,1,0,4 \
    f,GLOBAL,NOTYPE,0,0,0;1,0,GOT_HI20,f,0 1,4,PCREL_LO12_I,main,0/code,4,00000517.00053503.00008067;\
    more,GLOBAL,FUNC,1,0,4 f,WEAK,NOTYPE,0,0,0;1,0,GOT_HI20,f,0 1,4,PCREL_LO12_I,more,0/code,4,00008067;\
    f,GLOBAL,FUNC,1,0,4;|main|enter 40000040, words c0010517 fc053503 c0010517 fa053503, data 8 40000080, end \
    10008\n\
    two uses of one symbol share a slot|code,4,00000517.00053503.00000517.00053503.00000517.00053503.00008067;\
    main,GLOBAL,FUNC,1,0,4 l1,LOCAL,NOTYPE,1,8,0 l2,LOCAL,NOTYPE,1,16,0 f,LOCAL,FUNC,1,24,4 g,LOCAL,FUNC,1,20,4;\
    1,0,GOT_HI20,f,0 1,4,PCREL_LO12_I,main,0 1,8,GOT_HI20,g,0 1,12,PCREL_LO12_I,l1,0 1,16,GOT_HI20,f,0 \
    1,20,PCREL_LO12_I,l2,0|main|enter 40000040, words c0010517 fc053503 c0010517 fc053503 c0010517 fb053503, data \
    16 40000058 40000054, end 10010\n\
    local symbols of one name in two objects have two|code,4,00000517.00053503.00008067;main,GLOBAL,FUNC,1,0,4 \
    f,LOCAL,FUNC,1,8,4;1,0,GOT_HI20,f,0 1,4,PCREL_LO12_I,main,0/code,4,00000517.00053503.00008067;\
    more,GLOBAL,FUNC,1,0,4 f,LOCAL,FUNC,1,8,4;1,0,GOT_HI20,f,0 1,4,PCREL_LO12_I,more,0|main|enter 40000040, words \
    c0010517 fc053503 c0010517 fa853503, data 16 40000048 40000068, end 10010\n\
    number 0 has one slot for all objects|code,4,00000517.00053503.00008067;main,GLOBAL,FUNC,1,0,4;\
    1,0,GOT_HI20,#0,0 1,4,PCREL_LO12_I,main,0/code,4,00000517.00053503.00008067;more,GLOBAL,FUNC,1,0,4;\
    1,0,GOT_HI20,#0,0 1,4,PCREL_LO12_I,more,0|main|enter 40000040, words c0010517 fc053503 c0010517 fa053503, data \
    8 0, end 10008\n\
    numbers, commons, zeros and weak definitions|\
    code,4,00000517.00053503.00000517.00053503.00000517.00053503.00000517.00053503.00008067;main,GLOBAL,FUNC,1,0,4 \
    l1,LOCAL,NOTYPE,1,8,0 l2,LOCAL,NOTYPE,1,16,0 l3,LOCAL,NOTYPE,1,24,0 n,GLOBAL,NOTYPE,0,0,0 c,GLOBAL,NOTYPE,0,0,0 \
    z,GLOBAL,NOTYPE,0,0,0 w,GLOBAL,NOTYPE,0,0,0;1,0,GOT_HI20,n,0 1,4,PCREL_LO12_I,main,0 1,8,GOT_HI20,c,0 \
    1,12,PCREL_LO12_I,l1,0 1,16,GOT_HI20,z,0 1,20,PCREL_LO12_I,l2,0 1,24,GOT_HI20,w,0 1,28,PCREL_LO12_I,l3,0/;\
    n,GLOBAL,NOTYPE,ABS,4660,0 c,GLOBAL,OBJECT,COMMON,16,8;/zeros,4,4 data,4,7;z,GLOBAL,OBJECT,1,0,4 \
    w,WEAK,OBJECT,2,0,4;/;c,GLOBAL,OBJECT,COMMON,64,4;|main|enter 40000040, words c0010517 fc853503 c0010517 \
    fc853503 c0010517 fc853503 c0010517 fc853503, data 40 7 1234 10040 10028 10000, end 10048\n\
    by section and offset, whatever the relocations' order|code,4,00000517.00000597.00008067 \
    code,4,00000617.00008067;main,GLOBAL,FUNC,1,0,4 a,GLOBAL,NOTYPE,0,0,0 b,GLOBAL,NOTYPE,0,0,0 \
    c,GLOBAL,NOTYPE,0,0,0 d,GLOBAL,NOTYPE,0,0,0;2,0,GOT_HI20,a,0 1,4,GOT_HI20,b,0 1,0,GOT_HI20,c,0/\
    code,4,00000697.00008067 data,8,1.0.2.0.3.0.4.0;d,GLOBAL,OBJECT,2,0,8 a,GLOBAL,OBJECT,2,8,8 \
    b,GLOBAL,OBJECT,2,16,8 c,GLOBAL,OBJECT,2,24,8;1,0,GOT_HI20,d,0|main|enter 40000040, words c0010517 c0010597 \
    c0010617 c0010697, data 64 1 2 3 4 10018 10010 10008 10000, end 10040\n\
    behind the last section of data, before zeros and commons|code,4,00000517.00053503.00000517.00053503.00008067 \
    zeros,4,4 data,4,7;main,GLOBAL,FUNC,1,0,4 l1,LOCAL,NOTYPE,1,8,0 z,LOCAL,OBJECT,2,0,4 c,GLOBAL,OBJECT,COMMON,4,4;\
    1,0,GOT_HI20,z,0 1,4,PCREL_LO12_I,main,0 1,8,GOT_HI20,c,0 1,12,PCREL_LO12_I,l1,0/zeros,2,2 data,4,8.9.a;;|main|\
    enter 40000040, words c0010517 fd053503 c0010517 fd053503, data 32 800000007 a00000009 10020 10028, end 1002c\n\
    without a slot data end where they end|code,4,00008067 zeros,4,4 data,4,7;main,GLOBAL,FUNC,1,0,4 \
    c,GLOBAL,OBJECT,COMMON,4,4;|main|enter 40000040, data 4 7, end 1000c\n\
    a section's end is a place, and is not taken|code,4,00000517.00028067;main,GLOBAL,FUNC,1,0,8 \
    f,GLOBAL,NOTYPE,0,0,0;1,0,GOT_HI20,f,0/code,4,00008067;f,GLOBAL,FUNC,1,4,0;|main|enter 40000040, class 00001, \
    words c0010517, data 8 40000090, end 10008\n\
    what a slot names is taken|code,4,00000517.00028067;main,GLOBAL,FUNC,1,0,8 f,GLOBAL,NOTYPE,0,0,0;\
    1,0,GOT_HI20,f,0/code,4,00008067.00008067;f,GLOBAL,FUNC,1,4,4;|main|enter 40000040, class 00001 40000090, words \
    c0010517, data 8 40000090, end 10008\n\
    a store to what a slot names|code,4,00000517.00a53023.00008067;main,GLOBAL,FUNC,1,0,12 x,GLOBAL,NOTYPE,0,0,0;\
    1,0,GOT_HI20,x,0 1,4,PCREL_LO12_S,main,0/;x,GLOBAL,OBJECT,COMMON,8,8;|main|enter 40000040, words c0010517 \
    fc050f93, data 8 10008, end 10010\n\
    a number added to a slot's address|code,4,00000517.00053503.00008067;main,GLOBAL,FUNC,1,0,4 \
    f,GLOBAL,NOTYPE,0,0,0;1,0,GOT_HI20,f,1 1,4,PCREL_LO12_I,main,0/code,4,00008067;f,GLOBAL,FUNC,1,0,4;|main|\
    RelocPlace 1 0\n\
    a number added to that of number 0|code,4,00008067;main,GLOBAL,FUNC,1,0,4;/code,4,00000517.00053503.00008067;\
    more,GLOBAL,FUNC,1,0,4;1,0,GOT_HI20,#0,8 1,4,PCREL_LO12_I,more,0|main|RelocPlace 6 0\n\
    two slots at one instruction|code,4,00000517.00008067;main,GLOBAL,FUNC,1,0,8;1,0,GOT_HI20,main,0 \
    1,0,GOT_HI20,main,0|main|RelocPlace 1 0\n\
    a slot at another instruction|code,4,00000537.00008067;main,GLOBAL,FUNC,1,0,8;1,0,GOT_HI20,main,0|main|\
    RelocPlace 1 0\n\
    a slot of the middle of an instruction of another object|code,4,00000517.00053503.00008067;\
    main,GLOBAL,FUNC,1,0,4 f,GLOBAL,NOTYPE,0,0,0;1,0,GOT_HI20,f,0 1,4,PCREL_LO12_I,main,0/code,4,00008067;\
    f,GLOBAL,NOTYPE,1,2,0;|main|BadCodePointer 1 0\n\
    a slot of the second word of a pair|code,4,00000517.00053503.00008067;main,GLOBAL,FUNC,1,0,4 \
    f,GLOBAL,NOTYPE,0,0,0;1,0,GOT_HI20,f,0 1,4,PCREL_LO12_I,main,0/code,4,00000097.000080e7.00008067;\
    g,LOCAL,NOTYPE,1,0,0 f,GLOBAL,NOTYPE,1,4,0;1,0,CALL,g,0|main|BadCodePointer 1 0\n\
    a slot of what is defined nowhere|code,4,00008067;main,GLOBAL,FUNC,1,0,4;/code,4,00000517.00053503.00008067;\
    more,GLOBAL,FUNC,1,0,4 f,GLOBAL,NOTYPE,0,0,0;1,0,GOT_HI20,f,0 1,4,PCREL_LO12_I,more,0|main|Undefined 2 in 2\n";

/// Relocations from one object to another, by their types.
#[rattlefmt::skip]
pub(crate) static KINDS: &[u8] = b"\
    branches, jumps and calls to another object|\
    code,4,00b50063.0000006f.000000ef.00000097.000080e7.00000317.00030067;main,GLOBAL,FUNC,1,0,28 \
    f,GLOBAL,NOTYPE,0,0,0 g,GLOBAL,NOTYPE,0,0,0;1,0,BRANCH,f,4 1,4,JAL,g,0 1,8,JAL,f,0 1,12,CALL,g,0 \
    1,20,CALL_PLT,f,8/code,4,00000013.00000013.00008067;f,GLOBAL,FUNC,1,0,12;/code,4,00008067;g,GLOBAL,FUNC,1,0,4;|\
    main|enter 40000040, words 04b50a63 06c0006f 02c000ef 02c000ef 0100006f, end 10000\n\
    addresses of another object's data and code|\
    code,4,00000537.00053503.00a53023.00000597.0005b583.00000617.00c62023.00008067;main,GLOBAL,FUNC,1,0,32 \
    m,LOCAL,NOTYPE,1,12,0 l,LOCAL,NOTYPE,1,20,0 d,GLOBAL,NOTYPE,0,0,0 f,GLOBAL,NOTYPE,0,0,0;1,0,HI20,d,2048 \
    1,4,LO12_I,d,2048 1,8,LO12_S,d,2048 1,12,PCREL_HI20,f,0 1,16,PCREL_LO12_I,m,0 1,20,PCREL_HI20,d,4 \
    1,24,PCREL_LO12_S,l,0/code,4,00000013.00008067 data,8,1.2;f,GLOBAL,FUNC,1,4,4 d,GLOBAL,OBJECT,2,4,4;|main|enter \
    40000040, words 00011537 80453503 80450f93 00000597 0385b583 c0010617 fa860f93, data 8 200000001, end 10008\n\
    numbers of 4 bytes, sums and differences over two objects|code,4,00008067 data,8,0.3.5.1.9.0;\
    main,GLOBAL,FUNC,1,0,4 a,GLOBAL,NOTYPE,0,0,0 b,GLOBAL,NOTYPE,0,0,0;2,0,32,a,1 2,4,ADD32,a,0 2,4,SUB32,b,0 \
    2,8,ADD32,b,0 2,8,SUB32,a,0 2,16,64,#0,5 2,16,NONE,a,0/data,8,0.0.0.0;a,GLOBAL,OBJECT,1,4,4 \
    b,GLOBAL,OBJECT,1,12,4;|main|enter 40000040, data 40 fffffffb0001001d 10000000d 5 0 0, end 10028\n\
    sections of code in the order of objects|code,4,00000013.00008067 code,4,00008067;main,GLOBAL,FUNC,2,0,4;/\
    data,8,0.0.0.0 code,4,00000013.00008067;f,GLOBAL,FUNC,2,0,8;1,0,64,f,4 1,8,64,f,8|main|enter 4000005c, data 16 \
    40000078 4000008c, end 10010\n\
    a jump to its section's end, though another object's code stands there|code,4,0040006f;main,GLOBAL,FUNC,1,0,4;/\
    code,4,00008067;f,GLOBAL,FUNC,1,0,4;|main|BadTransfer 1 0\n\
    relocations of sections that are not kept are not read|code,4,00008067 text,8,0.0 frames,8,0.0;\
    main,GLOBAL,FUNC,1,0,4 x,GLOBAL,NOTYPE,0,0,0;2,0,64,x,0 3,0,64,x,0/text,4,00000517;main,LOCAL,NOTYPE,1,0,0;\
    1,0,GOT_HI20,main,1|main|enter 40000040, end 10000\n\
    objects without sections move nothing|;;;40,0000000000000000 60,0000/code,4,00008067 data,8,0.0;\
    main,GLOBAL,FUNC,1,0,4 x,GLOBAL,NOTYPE,0,0,0;2,0,64,x,0/;;;40,0000000000000000 60,0000/;;;40,0000000000000000 \
    60,0000/data,8,5.0;x,GLOBAL,OBJECT,1,0,8;/;;;40,0000000000000000 60,0000|main|enter 40000040, data 16 10008 5, \
    end 10010\n";
