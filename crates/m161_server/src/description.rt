//! The description of the machine's registers.

ghost use Rattle.std.specs.Prelude.{◌≡◌};
ghost use Rattle.m161_server.specs.Descriptions.{description};

// A line for each register. GDB refuses one without the registers of floats, and without the word on
// the system it takes Linux's.
const DESCRIPTION: &str = "\
<?xml version=\"1.0\"?>
<!DOCTYPE target SYSTEM \"gdb-target.dtd\">
<target version=\"1.0\">
<architecture>mips:3000</architecture>
<osabi>none</osabi>
<feature name=\"org.gnu.gdb.mips.cpu\">
<reg name=\"r0\" bitsize=\"32\" regnum=\"0\"/>
<reg name=\"r1\" bitsize=\"32\" regnum=\"1\"/>
<reg name=\"r2\" bitsize=\"32\" regnum=\"2\"/>
<reg name=\"r3\" bitsize=\"32\" regnum=\"3\"/>
<reg name=\"r4\" bitsize=\"32\" regnum=\"4\"/>
<reg name=\"r5\" bitsize=\"32\" regnum=\"5\"/>
<reg name=\"r6\" bitsize=\"32\" regnum=\"6\"/>
<reg name=\"r7\" bitsize=\"32\" regnum=\"7\"/>
<reg name=\"r8\" bitsize=\"32\" regnum=\"8\"/>
<reg name=\"r9\" bitsize=\"32\" regnum=\"9\"/>
<reg name=\"r10\" bitsize=\"32\" regnum=\"10\"/>
<reg name=\"r11\" bitsize=\"32\" regnum=\"11\"/>
<reg name=\"r12\" bitsize=\"32\" regnum=\"12\"/>
<reg name=\"r13\" bitsize=\"32\" regnum=\"13\"/>
<reg name=\"r14\" bitsize=\"32\" regnum=\"14\"/>
<reg name=\"r15\" bitsize=\"32\" regnum=\"15\"/>
<reg name=\"r16\" bitsize=\"32\" regnum=\"16\"/>
<reg name=\"r17\" bitsize=\"32\" regnum=\"17\"/>
<reg name=\"r18\" bitsize=\"32\" regnum=\"18\"/>
<reg name=\"r19\" bitsize=\"32\" regnum=\"19\"/>
<reg name=\"r20\" bitsize=\"32\" regnum=\"20\"/>
<reg name=\"r21\" bitsize=\"32\" regnum=\"21\"/>
<reg name=\"r22\" bitsize=\"32\" regnum=\"22\"/>
<reg name=\"r23\" bitsize=\"32\" regnum=\"23\"/>
<reg name=\"r24\" bitsize=\"32\" regnum=\"24\"/>
<reg name=\"r25\" bitsize=\"32\" regnum=\"25\"/>
<reg name=\"r26\" bitsize=\"32\" regnum=\"26\"/>
<reg name=\"r27\" bitsize=\"32\" regnum=\"27\"/>
<reg name=\"r28\" bitsize=\"32\" regnum=\"28\"/>
<reg name=\"r29\" bitsize=\"32\" regnum=\"29\"/>
<reg name=\"r30\" bitsize=\"32\" regnum=\"30\"/>
<reg name=\"r31\" bitsize=\"32\" regnum=\"31\"/>
<reg name=\"lo\" bitsize=\"32\" regnum=\"33\"/>
<reg name=\"hi\" bitsize=\"32\" regnum=\"34\"/>
<reg name=\"pc\" bitsize=\"32\" regnum=\"37\" type=\"code_ptr\"/>
</feature>
<feature name=\"org.gnu.gdb.mips.cp0\">
<reg name=\"status\" bitsize=\"32\" regnum=\"32\"/>
<reg name=\"badvaddr\" bitsize=\"32\" regnum=\"35\"/>
<reg name=\"cause\" bitsize=\"32\" regnum=\"36\"/>
</feature>
<feature name=\"org.gnu.gdb.mips.fpu\">
<reg name=\"f0\" bitsize=\"32\" regnum=\"38\" type=\"ieee_single\"/>
<reg name=\"f1\" bitsize=\"32\" regnum=\"39\" type=\"ieee_single\"/>
<reg name=\"f2\" bitsize=\"32\" regnum=\"40\" type=\"ieee_single\"/>
<reg name=\"f3\" bitsize=\"32\" regnum=\"41\" type=\"ieee_single\"/>
<reg name=\"f4\" bitsize=\"32\" regnum=\"42\" type=\"ieee_single\"/>
<reg name=\"f5\" bitsize=\"32\" regnum=\"43\" type=\"ieee_single\"/>
<reg name=\"f6\" bitsize=\"32\" regnum=\"44\" type=\"ieee_single\"/>
<reg name=\"f7\" bitsize=\"32\" regnum=\"45\" type=\"ieee_single\"/>
<reg name=\"f8\" bitsize=\"32\" regnum=\"46\" type=\"ieee_single\"/>
<reg name=\"f9\" bitsize=\"32\" regnum=\"47\" type=\"ieee_single\"/>
<reg name=\"f10\" bitsize=\"32\" regnum=\"48\" type=\"ieee_single\"/>
<reg name=\"f11\" bitsize=\"32\" regnum=\"49\" type=\"ieee_single\"/>
<reg name=\"f12\" bitsize=\"32\" regnum=\"50\" type=\"ieee_single\"/>
<reg name=\"f13\" bitsize=\"32\" regnum=\"51\" type=\"ieee_single\"/>
<reg name=\"f14\" bitsize=\"32\" regnum=\"52\" type=\"ieee_single\"/>
<reg name=\"f15\" bitsize=\"32\" regnum=\"53\" type=\"ieee_single\"/>
<reg name=\"f16\" bitsize=\"32\" regnum=\"54\" type=\"ieee_single\"/>
<reg name=\"f17\" bitsize=\"32\" regnum=\"55\" type=\"ieee_single\"/>
<reg name=\"f18\" bitsize=\"32\" regnum=\"56\" type=\"ieee_single\"/>
<reg name=\"f19\" bitsize=\"32\" regnum=\"57\" type=\"ieee_single\"/>
<reg name=\"f20\" bitsize=\"32\" regnum=\"58\" type=\"ieee_single\"/>
<reg name=\"f21\" bitsize=\"32\" regnum=\"59\" type=\"ieee_single\"/>
<reg name=\"f22\" bitsize=\"32\" regnum=\"60\" type=\"ieee_single\"/>
<reg name=\"f23\" bitsize=\"32\" regnum=\"61\" type=\"ieee_single\"/>
<reg name=\"f24\" bitsize=\"32\" regnum=\"62\" type=\"ieee_single\"/>
<reg name=\"f25\" bitsize=\"32\" regnum=\"63\" type=\"ieee_single\"/>
<reg name=\"f26\" bitsize=\"32\" regnum=\"64\" type=\"ieee_single\"/>
<reg name=\"f27\" bitsize=\"32\" regnum=\"65\" type=\"ieee_single\"/>
<reg name=\"f28\" bitsize=\"32\" regnum=\"66\" type=\"ieee_single\"/>
<reg name=\"f29\" bitsize=\"32\" regnum=\"67\" type=\"ieee_single\"/>
<reg name=\"f30\" bitsize=\"32\" regnum=\"68\" type=\"ieee_single\"/>
<reg name=\"f31\" bitsize=\"32\" regnum=\"69\" type=\"ieee_single\"/>
<reg name=\"fcsr\" bitsize=\"32\" regnum=\"70\"/>
<reg name=\"fir\" bitsize=\"32\" regnum=\"71\"/>
</feature>
<feature name=\"s161.cop0\">
<reg name=\"index\" bitsize=\"32\" regnum=\"72\"/>
<reg name=\"random\" bitsize=\"32\" regnum=\"73\"/>
<reg name=\"entrylo\" bitsize=\"32\" regnum=\"74\"/>
<reg name=\"context\" bitsize=\"32\" regnum=\"75\"/>
<reg name=\"count\" bitsize=\"32\" regnum=\"76\"/>
<reg name=\"entryhi\" bitsize=\"32\" regnum=\"77\"/>
<reg name=\"compare\" bitsize=\"32\" regnum=\"78\"/>
<reg name=\"epc\" bitsize=\"32\" regnum=\"79\"/>
<reg name=\"prid\" bitsize=\"32\" regnum=\"80\"/>
</feature>
</target>
";

/// The description, as XML.
#[tactic(auto, unfolding(crate::specs::Descriptions::description))]
pub(crate) fn description() -> &'static str
    ensures { result.now ≡ description }
{
    DESCRIPTION
}
