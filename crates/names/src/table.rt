// The texts as one array of bytes, cut by where each starts.
ghost use Rattle.std.specs.Prelude.{◌-◌, ◌<◌, ◌≤◌, ◌≡◌, [], get_or, take, drop};
ghost use Rattle.text.specs.Append.{Extends};
ghost use Rattle.names.specs.Table.{texts, lists, together};

const LISTS: usize = 39;

// The texts, one after the other: the labels, and then each list of meanings by the value.
static BYTES: [u8; 9643] = *b"\
    ECILCVCONDTIOpc2Opc1CRnRtCRmDirectionRt2imm8RnOffsetAMimm16CommentCCKNOWNPASSSETFnVEAS1PTWIFSCISVSASSSESRTSFARCMWnRDFS\
    CEXAETTAcoproc0:FnV\
    : Unknown reason\
    : Trapped WFI or WFE instruction execution\
    : Trapped MCR or MRC access with coproc 0b1111\
    : Trapped MCRR or MRRC access with coproc 0b1111\
    : Trapped MCR or MRC access with coproc 0b1110\
    : Trapped LDC or STC access\
    : Trapped access to Advanced SIMD or floating-point functionality\
    : Trapped VMRS access, from ID group trap\
    : Trapped MRRC access with coproc 0b1110\
    : Illegal Execution state\
    : SVC instruction execution in AArch32 state\
    : HVC instruction execution in AArch32 state\
    : SMC instruction execution in AArch32 state\
    : Instruction Abort from a lower Exception level\
    : PC alignment fault exception\
    : Data Abort from a lower Exception level\
    : SError interrupt\
    : Breakpoint exception from a lower Exception level\
    : Software Step exception from a lower Exception level\
    : Watchpoint exception from a lower Exception level\
    : BKPT instruction execution in AArch32 state\
    : Vector Catch exception from AArch32 state\
    : 16-bit instruction trapped\
    : 32-bit instruction trapped\
    : The COND field is not valid\
    : The COND field is valid\
    : EQ\
    : NE\
    : CS\
    : CC\
    : MI\
    : PL\
    : VS\
    : VC\
    : HI\
    : LS\
    : GE\
    : LT\
    : GT\
    : LE\
    : AL\
    : UNKNOWN\
    : UNKNOWN\
    : UNKNOWN\
    : UNKNOWN\
    : UNKNOWN\
    : UNKNOWN\
    : UNKNOWN\
    : UNKNOWN\
    : UNKNOWN\
    : UNKNOWN\
    : UNKNOWN\
    : UNKNOWN\
    : UNKNOWN\
    : UNKNOWN\
    : UNKNOWN\
    : UNKNOWN\
    : UNKNOWN\
    : UNKNOWN\
    : UNKNOWN\
    : UNKNOWN\
    : UNKNOWN\
    : UNKNOWN\
    : UNKNOWN\
    : UNKNOWN\
    : UNKNOWN\
    : UNKNOWN\
    : UNKNOWN\
    : UNKNOWN\
    : UNKNOWN\
    : UNKNOWN\
    : UNKNOWN\
    : UNKNOWN\
    : WFI trapped\
    : WFE trapped\
    : Write to System register space, MCR instruction\
    : Read from System register space, MRC or VMRS instruction\
    : Write to System register space, MCRR instruction\
    : Read from System register space, MRRC instruction\
    : Subtract offset\
    : Add offset\
    : Immediate unindexed\
    : Immediate post-indexed\
    : Immediate offset\
    : Immediate pre-indexed\
    : Literal unindexed\
    : Literal offset\
    : Write to memory, STC instruction\
    : Read from memory, LDC instruction\
    : The instruction was unconditional, or passed its condition code check\
    : The instruction was conditional, and might have failed its condition code check\
    : Recoverable state (UER), where the board has RAS\
    : Uncontainable (UC)\
    : Restartable state (UEO)\
    : FAR is valid\
    : FAR is not valid, and holds an UNKNOWN value\
    : Fault not on a stage 2 translation for a stage 1 translation table walk\
    : Fault on the stage 2 translation of an access for a stage 1 translation table walk\
    : Address size fault, level 0 of translation or translation table base register\
    : Address size fault, level 1\
    : Address size fault, level 2\
    : Address size fault, level 3\
    : Translation fault, level 0\
    : Translation fault, level 1\
    : Translation fault, level 2\
    : Translation fault, level 3\
    : Access flag fault, level 0\
    : Access flag fault, level 1\
    : Access flag fault, level 2\
    : Access flag fault, level 3\
    : Permission fault, level 0\
    : Permission fault, level 1\
    : Permission fault, level 2\
    : Permission fault, level 3\
    : Synchronous External abort, not on translation table walk or hardware update of translation table\
    : Synchronous External abort on translation table walk or hardware update of translation table, level -1\
    : Synchronous External abort on translation table walk or hardware update of translation table, level 0\
    : Synchronous External abort on translation table walk or hardware update of translation table, level 1\
    : Synchronous External abort on translation table walk or hardware update of translation table, level 2\
    : Synchronous External abort on translation table walk or hardware update of translation table, level 3\
    : Synchronous parity or ECC error on memory access, not on translation table walk\
    : Synchronous parity or ECC error on memory access on translation table walk or hardware update of translation table, level -1\
    : Synchronous parity or ECC error on memory access on translation table walk or hardware update of translation table, level 0\
    : Synchronous parity or ECC error on memory access on translation table walk or hardware update of translation table, level 1\
    : Synchronous parity or ECC error on memory access on translation table walk or hardware update of translation table, level 2\
    : Synchronous parity or ECC error on memory access on translation table walk or hardware update of translation table, level 3\
    : Alignment fault\
    : Debug exception\
    : Address size fault, level -1\
    : Translation fault, level -1\
    : TLB conflict abort\
    : Unsupported atomic hardware update fault\
    : IMPLEMENTATION DEFINED fault (Lockdown)\
    : IMPLEMENTATION DEFINED fault (Unsupported Exclusive or Atomic access)\
    : No valid instruction syndrome\
    : ISS[23:14] hold a valid instruction syndrome\
    : Byte\
    : Halfword\
    : Word\
    : Sign-extension not required\
    : Data item must be sign-extended\
    : Instruction loads/stores a 32-bit wide register\
    : Instruction did not have acquire/release semantics\
    : Instruction did have acquire/release semantics\
    : Not from a cache maintenance or address translation instruction\
    : From a cache maintenance or address translation instruction\
    : Read from a memory location\
    : Write to a memory location\
    : EX bit is RES0\
    : EX bit is valid\
    : An instruction other than a Load-Exclusive instruction was stepped\
    : A Load-Exclusive instruction was stepped\
    : Uncontainable (UC)\
    : Unrecoverable state (UEU)\
    : Restartable state (UEO)\
    : Recoverable state (UER)\
    : Corrected (CE)\
    : Uncategorized error, where the board has RAS\
    : Asynchronous SError interrupt\
    : Unknown reason\
    : Trapped WFI or WFE instruction execution\
    : Trapped MCR or MRC access with coproc 0b1111\
    : Trapped MCRR or MRRC access with coproc 0b1111\
    : Trapped MCR or MRC access with coproc 0b1110\
    : Trapped LDC or STC access\
    : Access to Advanced SIMD or floating-point functionality trapped by a HCPTR.{TASE, TCP10} control\
    : Trapped VMRS access, from ID group trap\
    : Trapped MRRC access with coproc 0b1110\
    : Illegal exception return to AArch32 state\
    : Exception on SVC instruction execution in AArch32 state routed to EL2\
    : HVC instruction execution in AArch32 state\
    : Trapped execution of SMC instruction in AArch32 state\
    : Prefetch Abort from a lower Exception level\
    : PC alignment fault exception\
    : Data Abort from a lower Exception level\
    : Exception was not caused by trapped use of Advanced SIMD functionality\
    : Exception was caused by trapped use of Advanced SIMD functionality\
    : Uncontainable error (UC) or uncategorized, where the board has RAS\
    : Unrecoverable error (UEU)\
    : Restartable error (UEO) or Corrected error (CE)\
    : Recoverable error (UER)\
    : a bit is set that belongs to no field that the build has in this class\
    : CV 24 is 1 and COND 23:20 is 0b1111\
    : Direction 0 is 0, and this class only reads\
    : AM 3:1 is reserved, or is a literal form and Direction 0 is 0\
    : IL 25 is 0 and the immediate 15:0 is above 255\
    : CCKNOWNPASS 19 is 0, and CV 24 or COND 23:20 is not\
    : FnV 10 is 1 and the fault code 5:0 is not 0x10\
    : EA 9 is 1 and the fault code 5:0 is not among 0x10 to 0x1f\
    : S1PTW 7 is 1 and the fault code 5:0 is not among 0x00 to 0x0f, 0x29 and 0x2b\
    : ISV 24 is 0 and bits 23:14 are not\
    : ISV 24 is 1, and the access is none of an AArch32 guest: SF 15 is 1, SAS 23:22 is 3, or SRT 20:16 is 15 or 31\
    : ISV 24 is 1, and CM 8 or S1PTW 7 is 1\
    : SSE 21 is 1, and SAS 23:22 is above 1 or WnR 6 is 1\
    : CM 8 is 1 and WnR 6 is 0\
    : EX 6 is 1 and ISV 24 is 0\
    : DFSC 5:0 is neither 0 with AET 12:10 and EA 9 both 0, nor 0x11 with an AET of 0 to 3 or 6\
    : no edition has the fault code 5:0 in this class\
    : SET 12:11 is neither 0 nor, with the fault code 0x10, 2 or 3\
    : ISV 24 is 1 and the fault code 5:0 is not among 0x00 to 0x0f, 0x13 to 0x17, 0x29 and 0x2b\
    : the fault code 5:0 is not 0x22, a debug exception\
    : TA 5 is 1 and coproc 3:0 is not 0b1010, or TA 5 is 0 and coproc 3:0 is not 0\
    : CM 8 is 1 in an SError interrupt\
    : bits 11:10 are not 0, and the fault code 5:0 is neither 0x11, nor 0x10 with bits 11:10 equal to 1\
    : ISV 24 is 1, and SAS 23:22 is 3 or SRT 19:16 is 15\
    : AET 11:10 is not 0, which needs RAS, and WnR 6 is 1, which RAS makes 0\
    : Undefined Instruction, PC at the instruction\
    : Undefined Instruction, PC after the instruction\
    : Supervisor Call\
    : Prefetch Abort\
    : Data Abort\
    : Address size fault, translation table base register\
    : Address size fault, level 1\
    : Address size fault, level 2\
    : Address size fault, level 3\
    : Translation fault, level 1\
    : Translation fault, level 2\
    : Translation fault, level 3\
    : Access flag fault, level 1\
    : Access flag fault, level 2\
    : Access flag fault, level 3\
    : Permission fault, level 1\
    : Permission fault, level 2\
    : Permission fault, level 3\
    : Synchronous External abort, not on translation table walk\
    : SError interrupt\
    : Synchronous External abort, on translation table walk, level 1\
    : Synchronous External abort, on translation table walk, level 2\
    : Synchronous External abort, on translation table walk, level 3\
    : Synchronous parity or ECC error on memory access, not on translation table walk\
    : SError interrupt from a parity or ECC error on memory access\
    : Synchronous parity or ECC error on memory access on translation table walk, level 1\
    : Synchronous parity or ECC error on memory access on translation table walk, level 2\
    : Synchronous parity or ECC error on memory access on translation table walk, level 3\
    : Alignment fault\
    : Debug exception\
    : TLB conflict abort\
    : IMPLEMENTATION DEFINED fault (Lockdown)\
    : IMPLEMENTATION DEFINED fault (Unsupported Exclusive access)\
    : HIFAR is valid\
    : HIFAR is not valid, and holds an UNKNOWN value\
    : R0\
    : R1\
    : R2\
    : R3\
    : R4\
    : R5\
    : R6\
    : R7\
    : R8_usr\
    : R9_usr\
    : R10_usr\
    : R11_usr\
    : R12_usr\
    : SP_usr\
    : LR_usr\
    : SP_hyp\
    : LR_irq\
    : SP_irq\
    : LR_svc\
    : SP_svc\
    : LR_abt\
    : SP_abt\
    : LR_und\
    : SP_und\
    : R8_fiq\
    : R9_fiq\
    : R10_fiq\
    : R11_fiq\
    : R12_fiq\
    : SP_fiq\
    : LR_fiq\
    : register 15 of the instruction\
    : IMPLEMENTATION DEFINED classification of External aborts\
    : HDFAR is valid\
    : HDFAR is not valid, and holds an UNKNOWN value\
    ";

// Where each text starts, and where the last ends.
const STARTS: [u16; 439] = [
    0, 2, 4, 6, 10, 12, 16, 20, 23, 25, 28, 37, 40, 44, 46, 52, 54, 59, 66, 77, 80, 83, 85, 90, 94,
    97, 100, 103, 106, 108, 110, 112, 115, 119, 121, 124, 126, 132, 137, 153, 195, 195, 241, 289,
    335, 362, 427, 468, 468, 468, 468, 508, 508, 533, 533, 533, 577, 621, 665, 665, 665, 665, 665,
    665, 665, 665, 665, 665, 665, 665, 665, 713, 713, 743, 743, 784, 784, 784, 784, 784, 784, 784,
    784, 784, 784, 784, 802, 853, 853, 907, 907, 958, 958, 958, 958, 1003, 1003, 1046, 1074, 1102,
    1131, 1156, 1160, 1164, 1168, 1172, 1176, 1180, 1184, 1188, 1192, 1196, 1200, 1204, 1208, 1212,
    1216, 1225, 1234, 1243, 1252, 1261, 1270, 1279, 1288, 1297, 1306, 1315, 1324, 1333, 1342, 1351,
    1360, 1369, 1378, 1387, 1396, 1405, 1414, 1423, 1432, 1441, 1450, 1459, 1468, 1477, 1486, 1495,
    1504, 1517, 1530, 1579, 1637, 1687, 1738, 1755, 1767, 1788, 1812, 1830, 1853, 1872, 1872, 1888,
    1922, 1957, 2028, 2109, 2159, 2159, 2179, 2204, 2218, 2264, 2337, 2421, 2500, 2529, 2558, 2587,
    2615, 2643, 2671, 2699, 2727, 2755, 2783, 2811, 2838, 2865, 2892, 2919, 3018, 3018, 3018, 3122,
    3225, 3328, 3431, 3534, 3615, 3615, 3615, 3741, 3866, 3991, 4116, 4241, 4241, 4258, 4275, 4275,
    4275, 4275, 4275, 4275, 4275, 4305, 4305, 4334, 4334, 4334, 4334, 4334, 4354, 4396, 4396, 4396,
    4437, 4508, 4539, 4585, 4591, 4601, 4607, 4636, 4669, 4718, 4770, 4818, 4883, 4944, 4973, 5001,
    5017, 5034, 5102, 5144, 5164, 5191, 5216, 5241, 5241, 5241, 5257, 5303, 5303, 5303, 5303, 5303,
    5303, 5303, 5303, 5303, 5303, 5303, 5303, 5303, 5303, 5303, 5303, 5303, 5334, 5350, 5392, 5392,
    5438, 5486, 5532, 5559, 5657, 5698, 5698, 5698, 5698, 5738, 5738, 5781, 5781, 5781, 5852, 5896,
    5951, 5951, 5951, 5951, 5951, 5951, 5951, 5951, 5951, 5951, 5951, 5951, 5951, 5996, 5996, 6026,
    6026, 6067, 6139, 6207, 6275, 6302, 6351, 6376, 6376, 6448, 6485, 6530, 6593, 6641, 6694, 6742,
    6802, 6880, 6916, 7027, 7066, 7119, 7145, 7172, 7263, 7312, 7374, 7465, 7516, 7594, 7628, 7727,
    7779, 7851, 7897, 7946, 7963, 7979, 7991, 8044, 8073, 8102, 8131, 8131, 8159, 8187, 8215, 8215,
    8243, 8271, 8299, 8299, 8326, 8353, 8380, 8439, 8457, 8457, 8457, 8457, 8521, 8585, 8649, 8730,
    8792, 8792, 8792, 8792, 8877, 8962, 9047, 9047, 9064, 9081, 9081, 9081, 9081, 9081, 9081, 9081,
    9081, 9081, 9081, 9081, 9081, 9081, 9081, 9101, 9101, 9101, 9101, 9142, 9203, 9219, 9267, 9271,
    9275, 9279, 9283, 9287, 9291, 9295, 9299, 9307, 9315, 9324, 9333, 9342, 9350, 9358, 9366, 9374,
    9382, 9390, 9398, 9406, 9414, 9422, 9430, 9438, 9446, 9455, 9464, 9473, 9481, 9489, 9521, 9521,
    9579, 9595, 9643,
];

// The first text of each list, the labels first, and the end of the last.
const FIRSTS: [u16; 40] = [
    0, 38, 38, 97, 99, 101, 116, 148, 150, 152, 154, 156, 163, 165, 167, 171, 173, 175, 229, 231,
    234, 236, 237, 239, 241, 243, 245, 247, 254, 272, 309, 311, 315, 341, 346, 400, 402, 434, 436,
    438,
];

use text::Text;

// Appends the bytes from `start` to `end`.
fn cut(text: &mut Text<'_>, start: usize, end: usize)
    requires { (start ≤ end) × (end ≤ 9643) }
    ensures { Extends (take (end - start) (drop start (together texts))) text.old text.new }
{
    text.append(&BYTES[start..end]);
}

// Appends text n.
fn text_at(text: &mut Text<'_>, n: usize)
    requires { n < 438 }
    ensures { Extends (get_or texts n []) text.old text.new }
{
    let start = usize::from(STARTS[n]);
    let end = usize::from(STARTS[n + 1]);
    cut(text, start, end);
}

// Appends entry i of a list, the labels being list 0, and nothing where there is none.
pub(crate) fn entry(text: &mut Text<'_>, list: usize, i: u64)
    ensures { Extends (get_or (get_or lists list []) i []) text.old text.new }
{
    if list < LISTS {
        let first = usize::from(FIRSTS[list]);
        let last = usize::from(FIRSTS[list + 1]);
        if i < (last - first) as u64 {
            text_at(text, first + i as usize);
        }
    }
}
