//! Which symbol defines a name where several objects have it, as GNU ld 2.40 links them; tests/objects/make_links.py at
//! the top of the repository prints this.

/// An object with a pointer to `x`, which stands before the others.
pub(crate) const READER: &str =
    "code,4,00008067 data,8,0.0;main,GLOBAL,FUNC,1,0,4 x,GLOBAL,NOTYPE,0,0,0;2,0,64,x,0";

/// The sorts of objects that define, or name, `x`: one a line.
#[rattlefmt::skip]
pub(crate) static SORTS: &[u8] = b"\
    strong|data,8,1.0;x,GLOBAL,OBJECT,1,0,8;\n\
    weak|data,8,2.0;x,WEAK,OBJECT,1,0,8;\n\
    second|data,8,3.0;x,WEAK,OBJECT,1,0,8;\n\
    common|;x,GLOBAL,OBJECT,COMMON,64,8;\n\
    larger|;x,GLOBAL,OBJECT,COMMON,8,24;\n\
    number|;x,GLOBAL,NOTYPE,ABS,20480,0;\n\
    faint|;x,WEAK,NOTYPE,ABS,24576,0;\n\
    used|;x,GLOBAL,NOTYPE,0,0,0;\n\
    wanted|;x,WEAK,NOTYPE,0,0,0;\n";

/// Sorts of objects in an order, and what is linked of them: data, whose first number is the pointer, and where they end.
#[rattlefmt::skip]
pub(crate) static ORDERS: &[u8] = b"\
    strong|data 16 10008 1, end 10010\nweak|data 16 10008 2, end 10010\nsecond|data 16 10008 3, end 10010\n\
    common|data 8 10040, end 10048\nlarger|data 8 10008, end 10020\nnumber|data 8 5000, end 10008\n\
    faint|data 8 6000, end 10008\nused|Undefined 2 in 1\nwanted|Undefined 2 in 1\nstrong strong|Duplicate x\n\
    strong weak|data 24 10008 1 2, end 10018\nstrong second|data 24 10008 1 3, end 10018\n\
    strong common|data 16 10008 1, end 10010\nstrong larger|data 16 10008 1, end 10010\nstrong number|Duplicate x\n\
    strong faint|data 16 10008 1, end 10010\nweak strong|data 24 10010 2 1, end 10018\n\
    weak weak|data 24 10008 2 2, end 10018\nweak second|data 24 10008 2 3, end 10018\n\
    weak common|data 16 10040 2, end 10048\nweak larger|data 16 10010 2, end 10028\n\
    weak number|data 16 5000 2, end 10010\nweak faint|data 16 10008 2, end 10010\n\
    second strong|data 24 10010 3 1, end 10018\nsecond weak|data 24 10008 3 2, end 10018\n\
    second second|data 24 10008 3 3, end 10018\nsecond common|data 16 10040 3, end 10048\n\
    second larger|data 16 10010 3, end 10028\nsecond number|data 16 5000 3, end 10010\n\
    second faint|data 16 10008 3, end 10010\ncommon strong|data 16 10008 1, end 10010\n\
    common weak|data 16 10040 2, end 10048\ncommon second|data 16 10040 3, end 10048\n\
    common common|data 8 10040, end 10048\ncommon larger|data 8 10040, end 10058\n\
    common number|data 8 5000, end 10008\ncommon faint|data 8 10040, end 10048\n\
    larger strong|data 16 10008 1, end 10010\nlarger weak|data 16 10010 2, end 10028\n\
    larger second|data 16 10010 3, end 10028\nlarger common|data 8 10040, end 10058\n\
    larger larger|data 8 10008, end 10020\nlarger number|data 8 5000, end 10008\n\
    larger faint|data 8 10008, end 10020\nnumber strong|Duplicate x\nnumber weak|data 16 5000 2, end 10010\n\
    number second|data 16 5000 3, end 10010\nnumber common|data 8 5000, end 10008\n\
    number larger|data 8 5000, end 10008\nnumber faint|data 8 5000, end 10008\n\
    faint strong|data 16 10008 1, end 10010\nfaint weak|data 16 6000 2, end 10010\n\
    faint second|data 16 6000 3, end 10010\nfaint common|data 8 10040, end 10048\n\
    faint larger|data 8 10008, end 10020\nfaint number|data 8 5000, end 10008\nfaint faint|data 8 6000, end 10008\n\
    weak second common|data 24 10040 2 3, end 10048\nweak common second|data 24 10040 2 3, end 10048\n\
    second weak common|data 24 10040 3 2, end 10048\nsecond common weak|data 24 10040 3 2, end 10048\n\
    common weak second|data 24 10040 2 3, end 10048\ncommon second weak|data 24 10040 3 2, end 10048\n\
    weak common larger|data 16 10040 2, end 10058\nweak larger common|data 16 10040 2, end 10058\n\
    common weak larger|data 16 10040 2, end 10058\ncommon larger weak|data 16 10040 2, end 10058\n\
    larger weak common|data 16 10040 2, end 10058\nlarger common weak|data 16 10040 2, end 10058\n\
    faint weak larger|data 16 10010 2, end 10028\nfaint larger weak|data 16 10010 2, end 10028\n\
    weak faint larger|data 16 10010 2, end 10028\nweak larger faint|data 16 10010 2, end 10028\n\
    larger faint weak|data 16 10010 2, end 10028\nlarger weak faint|data 16 10010 2, end 10028\n\
    strong weak common|data 24 10008 1 2, end 10018\nstrong common weak|data 24 10008 1 2, end 10018\n\
    weak strong common|data 24 10010 2 1, end 10018\nweak common strong|data 24 10010 2 1, end 10018\n\
    common strong weak|data 24 10008 1 2, end 10018\ncommon weak strong|data 24 10010 2 1, end 10018\n";
