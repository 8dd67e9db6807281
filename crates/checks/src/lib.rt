// Run texts and their listings: good ones, and bad ones in each way that a text can be bad.
#![tactic(auto)]

// A text and what it lists.
type Case = (&'static str, &'static str);

#[cfg(test)]
mod accesses;
#[cfg(test)]
mod inputs;
#[cfg(test)]
mod texts;

#[cfg(test)]
mod tests {
    use super::*;
    use machine::Sources;
    use std::alloc::{AllocError, Global};
    use std::process::Abort;
    use std::test::Fail;

    const CASES: [Case; 40] = [
        // only the header
        ("RUN\t1\n", ""),
        // empty
        ("", "1\tE\t205\tbad-text\t0\n"),
        // no line end
        ("RUN\t1", "1\tE\t205\tbad-text\t0\n"),
        // another version
        ("RUN\t2\n", "1\tE\t205\tbad-text\t0\n"),
        // spaces
        ("RUN 1\n", "1\tE\t205\tbad-text\t0\n"),
        // header twice
        ("RUN\t1\nRUN\t1\n", "2\tE\t205\tbad-text\t0\n"),
        // empty line
        ("RUN\t1\n\n", "2\tE\t205\tbad-text\t0\n"),
        // unknown letter
        ("RUN\t1\nQ\t1\n", "2\tE\t205\tbad-text\t0\n"),
        // lower case letter
        ("RUN\t1\nd\t8\t0\n", "2\tE\t205\tbad-text\t0\n"),
        // last line unended
        ("RUN\t1\nX\t0", "2\tE\t205\tbad-text\t0\n"),
        // doubleword unaligned
        ("RUN\t1\nD\t4\t0\n", "2\tE\t205\tbad-text\t0\n"),
        // doubleword field missing
        ("RUN\t1\nD\t8\n", "2\tE\t205\tbad-text\t0\n"),
        // doubleword field more
        ("RUN\t1\nD\t8\t0\t0\n", "2\tE\t205\tbad-text\t0\n"),
        // two tabs
        ("RUN\t1\nD\t\t8\t0\n", "2\tE\t205\tbad-text\t0\n"),
        // trailing tab
        ("RUN\t1\nD\t8\t0\t\n", "2\tE\t205\tbad-text\t0\n"),
        // key above 1f
        ("RUN\t1\nK\t0\t20\n", "2\tE\t205\tbad-text\t0\n"),
        // leading zero
        ("RUN\t1\nX\t00\n", "2\tE\t205\tbad-text\t0\n"),
        // capital digit
        ("RUN\t1\nX\tA000\n", "2\tE\t205\tbad-text\t0\n"),
        // seventeen digits
        ("RUN\t1\nX\t10000000000000000\n", "2\tE\t205\tbad-text\t0\n"),
        // no digit
        ("RUN\t1\nX\t\n", "2\tE\t205\tbad-text\t0\n"),
        // sign
        ("RUN\t1\nX\t-1\n", "2\tE\t205\tbad-text\t0\n"),
        // carriage return
        ("RUN\t1\nX\t0\r\n", "2\tE\t205\tbad-text\t0\n"),
        // doubleword after key
        ("RUN\t1\nK\t0\t0\nD\t8\t0\n", "3\tE\t205\tbad-text\t0\n"),
        // doubleword after call
        ("RUN\t1\nX\t0\nD\t8\t0\n", "3\tE\t205\tbad-text\t0\n"),
        // key after call
        ("RUN\t1\nX\t0\nK\t0\t0\n", "3\tE\t205\tbad-text\t0\n"),
        // access kind
        ("RUN\t1\nT\tX\t0\t0\n", "2\tE\t205\tbad-text\t0\n"),
        // source name
        ("RUN\t1\nZ\tP\n", "2\tE\t205\tbad-text\t0\n"),
        // second bad line is not named
        ("RUN\t1\nX\t0\nX\n\n", "3\tE\t205\tbad-text\t0\n"),
        // sixteen digits
        (
            "RUN\t1\nX\tffffffffffffffff\n",
            "2\tE\t202\tbad-prefix\t0\n",
        ),
        // key 1f
        ("RUN\t1\nK\t0\t1f\n", ""),
        // ranges are the calls matter
        (
            "RUN\t1\nC\t3\t0\nA\t10\t0\nA\t0\t100000000\nM\t5\t0\t0\nM\t0\t3\t0\nM\t0\t0\t10\nX\t1000\nT\tF\t10\t0\nW\t4\t0\n",
            "2\tE\t201\tbad-number\t0\n3\tE\t201\tbad-number\t0\n4\tE\t201\tbad-number\t0\n5\tE\t201\tbad-number\t0\n6\tE\t201\tbad-number\t0\n7\tE\t201\tbad-number\t0\n8\tE\t202\tbad-prefix\t0\n9\tE\t201\tbad-number\t0\n10\tE\t203\tunaligned\t0\n",
        ),
        // put to an absent doubleword
        ("RUN\t1\nW\t8\t0\n", "2\tE\t5\taddressing\t0\n"),
        // first record counts
        (
            "RUN\t1\nD\t8\t1\nD\t8\t2\nK\t0\t0\nT\tF\t0\t8\n",
            "5\tR\t8\t0\n",
        ),
        // key protection
        (
            "RUN\t1\nD\t0\t0\nD\t1000\t0\nD\t2000\t0\nK\t0\t2\nK\t1\t3\nK\t2\t4\nM\t0\t2\t2\nT\tF\t0\t0\nT\tS\t0\t0\nT\tF\t0\t1000\nT\tS\t0\t2000\n",
            "9\tR\t0\t0\n10\tE\t4K\tkey\t0\n11\tE\t4K\tkey\t0\n12\tR\t2000\t0\n",
        ),
        // low address
        (
            "RUN\t1\nD\t1f8\t0\nD\t200\t0\nK\t0\t0\nC\t0\t10000000\nT\tS\t0\t1ff\nT\tS\t0\t200\nT\tF\t0\t1ff\n",
            "6\tE\t4L\tlow-address\t0\n7\tR\t200\t0\n8\tR\t1ff\t0\n",
        ),
        // prefix exchanges
        (
            "RUN\t1\nD\t8\t0\nK\t0\t0\nX\t2000\nT\tF\t0\t8\nT\tF\t0\t2008\nX\t0\nT\tF\t0\t8\n",
            "5\tE\t5\taddressing\t0\n6\tR\t2008\t0\n8\tR\t8\t0\n",
        ),
        // real space
        (
            "RUN\t1\nD\t5000\t0\nK\t5\t0\nC\t1\t20\nM\t1\t2\t0\nT\tF\t0\t5001\n",
            "6\tR\t5001\t0\n",
        ),
        // asce type
        (
            "RUN\t1\nC\t1\t0\nM\t1\t2\t0\nT\tF\t0\t80000000\n",
            "4\tE\t38\tASCE-type\t0\n",
        ),
        // token reserved bits
        (
            "RUN\t1\nA\t1\t2000000\nM\t2\t2\t0\nT\tF\t1\t0\n",
            "4\tE\t28\tALET-specification\t0\n",
        ),
        // register 0 is primary
        (
            "RUN\t1\nD\t5000\t0\nK\t5\t0\nC\t1\t20\nA\t0\tffffffff\nM\t2\t2\t0\nT\tF\t0\t5000\n",
            "7\tR\t5000\t0\n",
        ),
    ];

    // Runs through both lookasides.
    const HELD: [Case; 15] = [
        // forty pages: the round-robin rows are displaced in turn
        (
            "RUN\t1\nD\t10000\t20000\nD\t20000\t45000\nD\t20008\t45000\nD\t20010\t45000\nD\t20018\t45000\nD\t20020\t45000\nD\t20028\t45000\nD\t20030\t45000\nD\t20038\t45000\nD\t20040\t45000\nD\t20048\t45000\nD\t20050\t45000\nD\t20058\t45000\nD\t20060\t45000\nD\t20068\t45000\nD\t20070\t45000\nD\t20078\t45000\nD\t20080\t45000\nD\t20088\t45000\nD\t20090\t45000\nD\t20098\t45000\nD\t200a0\t45000\nD\t200a8\t45000\nD\t200b0\t45000\nD\t200b8\t45000\nD\t200c0\t45000\nD\t200c8\t45000\nD\t200d0\t45000\nD\t200d8\t45000\nD\t200e0\t45000\nD\t200e8\t45000\nD\t200f0\t45000\nD\t200f8\t45000\nD\t20100\t45000\nD\t20108\t45000\nD\t20110\t45000\nD\t20118\t45000\nD\t20120\t45000\nD\t20128\t45000\nD\t20130\t45000\nD\t20138\t45000\nD\t45000\t0\nK\t10\t0\nK\t20\t0\nK\t45\t0\nC\t1\t10000\nM\t1\t2\t0\nT\tF\t0\t0\nT\tF\t0\t1000\nT\tF\t0\t2000\nT\tF\t0\t3000\nT\tF\t0\t4000\nT\tF\t0\t5000\nT\tF\t0\t6000\nT\tF\t0\t7000\nT\tF\t0\t8000\nT\tF\t0\t9000\nT\tF\t0\ta000\nT\tF\t0\tb000\nT\tF\t0\tc000\nT\tF\t0\td000\nT\tF\t0\te000\nT\tF\t0\tf000\nT\tF\t0\t10000\nT\tF\t0\t11000\nT\tF\t0\t12000\nT\tF\t0\t13000\nT\tF\t0\t14000\nT\tF\t0\t15000\nT\tF\t0\t16000\nT\tF\t0\t17000\nT\tF\t0\t18000\nT\tF\t0\t19000\nT\tF\t0\t1a000\nT\tF\t0\t1b000\nT\tF\t0\t1c000\nT\tF\t0\t1d000\nT\tF\t0\t1e000\nT\tF\t0\t1f000\nT\tF\t0\t20000\nT\tF\t0\t21000\nT\tF\t0\t22000\nT\tF\t0\t23000\nT\tF\t0\t24000\nT\tF\t0\t25000\nT\tF\t0\t26000\nT\tF\t0\t27000\nT\tF\t0\t0\nT\tF\t0\t27000\nT\tF\t0\t8000\nT\tF\t0\t7000\n",
            "49\tR\t45000\t2\n50\tR\t45000\t2\n51\tR\t45000\t2\n52\tR\t45000\t2\n53\tR\t45000\t2\n54\tR\t45000\t2\n55\tR\t45000\t2\n56\tR\t45000\t2\n57\tR\t45000\t2\n58\tR\t45000\t2\n59\tR\t45000\t2\n60\tR\t45000\t2\n61\tR\t45000\t2\n62\tR\t45000\t2\n63\tR\t45000\t2\n64\tR\t45000\t2\n65\tR\t45000\t2\n66\tR\t45000\t2\n67\tR\t45000\t2\n68\tR\t45000\t2\n69\tR\t45000\t2\n70\tR\t45000\t2\n71\tR\t45000\t2\n72\tR\t45000\t2\n73\tR\t45000\t2\n74\tR\t45000\t2\n75\tR\t45000\t2\n76\tR\t45000\t2\n77\tR\t45000\t2\n78\tR\t45000\t2\n79\tR\t45000\t2\n80\tR\t45000\t2\n81\tR\t45000\t2\n82\tR\t45000\t2\n83\tR\t45000\t2\n84\tR\t45000\t2\n85\tR\t45000\t2\n86\tR\t45000\t2\n87\tR\t45000\t2\n88\tR\t45000\t2\n89\tR\t45000\t0\n90\tR\t45000\t0\n91\tR\t45000\t0\n92\tR\t45000\t0\n",
        ),
        // seventy pages: the direct rows are displaced too
        (
            "RUN\t1\nD\t10000\t20000\nD\t20000\t45000\nD\t20008\t45000\nD\t20010\t45000\nD\t20018\t45000\nD\t20020\t45000\nD\t20028\t45000\nD\t20030\t45000\nD\t20038\t45000\nD\t20040\t45000\nD\t20048\t45000\nD\t20050\t45000\nD\t20058\t45000\nD\t20060\t45000\nD\t20068\t45000\nD\t20070\t45000\nD\t20078\t45000\nD\t20080\t45000\nD\t20088\t45000\nD\t20090\t45000\nD\t20098\t45000\nD\t200a0\t45000\nD\t200a8\t45000\nD\t200b0\t45000\nD\t200b8\t45000\nD\t200c0\t45000\nD\t200c8\t45000\nD\t200d0\t45000\nD\t200d8\t45000\nD\t200e0\t45000\nD\t200e8\t45000\nD\t200f0\t45000\nD\t200f8\t45000\nD\t20100\t45000\nD\t20108\t45000\nD\t20110\t45000\nD\t20118\t45000\nD\t20120\t45000\nD\t20128\t45000\nD\t20130\t45000\nD\t20138\t45000\nD\t20140\t45000\nD\t20148\t45000\nD\t20150\t45000\nD\t20158\t45000\nD\t20160\t45000\nD\t20168\t45000\nD\t20170\t45000\nD\t20178\t45000\nD\t20180\t45000\nD\t20188\t45000\nD\t20190\t45000\nD\t20198\t45000\nD\t201a0\t45000\nD\t201a8\t45000\nD\t201b0\t45000\nD\t201b8\t45000\nD\t201c0\t45000\nD\t201c8\t45000\nD\t201d0\t45000\nD\t201d8\t45000\nD\t201e0\t45000\nD\t201e8\t45000\nD\t201f0\t45000\nD\t201f8\t45000\nD\t20200\t45000\nD\t20208\t45000\nD\t20210\t45000\nD\t20218\t45000\nD\t20220\t45000\nD\t20228\t45000\nD\t45000\t0\nK\t10\t0\nK\t20\t0\nK\t45\t0\nC\t1\t10000\nM\t1\t2\t0\nT\tF\t0\t0\nT\tF\t0\t1000\nT\tF\t0\t2000\nT\tF\t0\t3000\nT\tF\t0\t4000\nT\tF\t0\t5000\nT\tF\t0\t6000\nT\tF\t0\t7000\nT\tF\t0\t8000\nT\tF\t0\t9000\nT\tF\t0\ta000\nT\tF\t0\tb000\nT\tF\t0\tc000\nT\tF\t0\td000\nT\tF\t0\te000\nT\tF\t0\tf000\nT\tF\t0\t10000\nT\tF\t0\t11000\nT\tF\t0\t12000\nT\tF\t0\t13000\nT\tF\t0\t14000\nT\tF\t0\t15000\nT\tF\t0\t16000\nT\tF\t0\t17000\nT\tF\t0\t18000\nT\tF\t0\t19000\nT\tF\t0\t1a000\nT\tF\t0\t1b000\nT\tF\t0\t1c000\nT\tF\t0\t1d000\nT\tF\t0\t1e000\nT\tF\t0\t1f000\nT\tF\t0\t20000\nT\tF\t0\t21000\nT\tF\t0\t22000\nT\tF\t0\t23000\nT\tF\t0\t24000\nT\tF\t0\t25000\nT\tF\t0\t26000\nT\tF\t0\t27000\nT\tF\t0\t28000\nT\tF\t0\t29000\nT\tF\t0\t2a000\nT\tF\t0\t2b000\nT\tF\t0\t2c000\nT\tF\t0\t2d000\nT\tF\t0\t2e000\nT\tF\t0\t2f000\nT\tF\t0\t30000\nT\tF\t0\t31000\nT\tF\t0\t32000\nT\tF\t0\t33000\nT\tF\t0\t34000\nT\tF\t0\t35000\nT\tF\t0\t36000\nT\tF\t0\t37000\nT\tF\t0\t38000\nT\tF\t0\t39000\nT\tF\t0\t3a000\nT\tF\t0\t3b000\nT\tF\t0\t3c000\nT\tF\t0\t3d000\nT\tF\t0\t3e000\nT\tF\t0\t3f000\nT\tF\t0\t40000\nT\tF\t0\t41000\nT\tF\t0\t42000\nT\tF\t0\t43000\nT\tF\t0\t44000\nT\tF\t0\t45000\nT\tF\t0\t0\nT\tF\t0\t45000\nT\tF\t0\t5000\nT\tF\t0\t6000\nT\tF\t0\t25000\nT\tF\t0\t26000\nT\tF\t0\t40000\n",
            "79\tR\t45000\t2\n80\tR\t45000\t2\n81\tR\t45000\t2\n82\tR\t45000\t2\n83\tR\t45000\t2\n84\tR\t45000\t2\n85\tR\t45000\t2\n86\tR\t45000\t2\n87\tR\t45000\t2\n88\tR\t45000\t2\n89\tR\t45000\t2\n90\tR\t45000\t2\n91\tR\t45000\t2\n92\tR\t45000\t2\n93\tR\t45000\t2\n94\tR\t45000\t2\n95\tR\t45000\t2\n96\tR\t45000\t2\n97\tR\t45000\t2\n98\tR\t45000\t2\n99\tR\t45000\t2\n100\tR\t45000\t2\n101\tR\t45000\t2\n102\tR\t45000\t2\n103\tR\t45000\t2\n104\tR\t45000\t2\n105\tR\t45000\t2\n106\tR\t45000\t2\n107\tR\t45000\t2\n108\tR\t45000\t2\n109\tR\t45000\t2\n110\tR\t45000\t2\n111\tR\t45000\t2\n112\tR\t45000\t2\n113\tR\t45000\t2\n114\tR\t45000\t2\n115\tR\t45000\t2\n116\tR\t45000\t2\n117\tR\t45000\t2\n118\tR\t45000\t2\n119\tR\t45000\t2\n120\tR\t45000\t2\n121\tR\t45000\t2\n122\tR\t45000\t2\n123\tR\t45000\t2\n124\tR\t45000\t2\n125\tR\t45000\t2\n126\tR\t45000\t2\n127\tR\t45000\t2\n128\tR\t45000\t2\n129\tR\t45000\t2\n130\tR\t45000\t2\n131\tR\t45000\t2\n132\tR\t45000\t2\n133\tR\t45000\t2\n134\tR\t45000\t2\n135\tR\t45000\t2\n136\tR\t45000\t2\n137\tR\t45000\t2\n138\tR\t45000\t2\n139\tR\t45000\t2\n140\tR\t45000\t2\n141\tR\t45000\t2\n142\tR\t45000\t2\n143\tR\t45000\t2\n144\tR\t45000\t2\n145\tR\t45000\t2\n146\tR\t45000\t2\n147\tR\t45000\t2\n148\tR\t45000\t2\n149\tR\t45000\t2\n150\tR\t45000\t0\n151\tR\t45000\t2\n152\tR\t45000\t0\n153\tR\t45000\t0\n154\tR\t45000\t0\n155\tR\t45000\t0\n",
        ),
        // two keys on one direct row; the lower lookaside fills it again
        (
            "RUN\t1\nD\t10000\t20000\nD\t20000\t45000\nD\t20008\t45000\nD\t20010\t45000\nD\t20018\t45000\nD\t20020\t45000\nD\t20028\t45000\nD\t20030\t45000\nD\t20038\t45000\nD\t20040\t45000\nD\t20048\t45000\nD\t20050\t45000\nD\t20058\t45000\nD\t20060\t45000\nD\t20068\t45000\nD\t20070\t45000\nD\t20078\t45000\nD\t20080\t45000\nD\t20088\t45000\nD\t20090\t45000\nD\t20098\t45000\nD\t200a0\t45000\nD\t200a8\t45000\nD\t200b0\t45000\nD\t200b8\t45000\nD\t200c0\t45000\nD\t200c8\t45000\nD\t200d0\t45000\nD\t200d8\t45000\nD\t200e0\t45000\nD\t200e8\t45000\nD\t200f0\t45000\nD\t200f8\t45000\nD\t20100\t45000\nD\t20108\t45000\nD\t20110\t45000\nD\t20118\t45000\nD\t20120\t45000\nD\t20128\t45000\nD\t20130\t45000\nD\t20138\t45000\nD\t20140\t45000\nD\t20148\t45000\nD\t20150\t45000\nD\t20158\t45000\nD\t20160\t45000\nD\t20168\t45000\nD\t20170\t45000\nD\t20178\t45000\nD\t20180\t45000\nD\t20188\t45000\nD\t20190\t45000\nD\t20198\t45000\nD\t201a0\t45000\nD\t201a8\t45000\nD\t201b0\t45000\nD\t201b8\t45000\nD\t201c0\t45000\nD\t201c8\t45000\nD\t201d0\t45000\nD\t201d8\t45000\nD\t201e0\t45000\nD\t201e8\t45000\nD\t201f0\t45000\nD\t201f8\t45000\nD\t20200\t45000\nD\t45000\t0\nK\t10\t0\nK\t20\t0\nK\t45\t0\nC\t1\t10000\nM\t1\t2\t0\nT\tF\t0\t0\nT\tF\t0\t40000\nW\t20000\t46000\nW\t20200\t46000\nT\tF\t0\t0\nT\tF\t0\t40000\nT\tF\t0\t0\n",
            "74\tR\t45000\t2\n75\tR\t45000\t2\n76\tW\n77\tW\n78\tR\t45000\t0\n79\tR\t45000\t0\n80\tR\t45000\t0\n",
        ),
        // an access-register answer is held while the page is walked, and each purge leaves the other source
        (
            "RUN\t1\nD\t1010\t200000000000\nD\t2020\t0\nD\t2028\t400000000000\nD\t4000\t0\nD\t4008\t10000\nD\t4010\t0\nD\t10000\t20000\nD\t20000\t45000\nD\t45000\t0\nK\t1\t0\nK\t2\t0\nK\t4\t0\nK\t10\t0\nK\t20\t0\nK\t45\t0\nC\t2\t1000\nA\t1\t2\nM\t2\t2\t0\nT\tF\t1\t0\nZ\tT\nT\tF\t1\t0\nZ\tA\nT\tF\t1\t0\nT\tF\t1\t0\nW\t4008\t0\nT\tF\t1\t0\nX\t0\nT\tF\t1\t0\n",
            "20\tR\t45000\t8\n21\tZ\n22\tR\t45000\t2\n23\tZ\n24\tR\t45000\t6\n25\tR\t45000\t0\n26\tW\n27\tR\t45000\t0\n29\tE\t5\taddressing\t7\n",
        ),
        // a store that a protection refuses keeps the rows of its finished lookups
        (
            "RUN\t1\nD\t10000\t20000\nD\t20000\t45200\nD\t45000\t0\nK\t10\t0\nK\t20\t0\nK\t45\t0\nC\t1\t10000\nM\t1\t2\t0\nT\tS\t0\t0\nT\tF\t0\t0\nT\tS\t0\t0\n",
            "10\tE\t4P\tpage\t2\n11\tR\t45000\t0\n12\tE\t4P\tpage\t0\n",
        ),
        // an exception is not held
        (
            "RUN\t1\nD\t10000\t20000\nD\t20000\t45400\nD\t45000\t0\nK\t10\t0\nK\t20\t0\nK\t45\t0\nC\t1\t10000\nM\t1\t2\t0\nT\tF\t0\t0\nW\t20000\t45000\nT\tF\t0\t0\nT\tF\t0\t0\n",
            "10\tE\t11\tpage-translation\t2\n11\tW\n12\tR\t45000\t2\n13\tR\t45000\t0\n",
        ),
        // real-space answers are held as any other, and displace rows
        (
            "RUN\t1\nD\t10000\t20000\nD\t20000\t45000\nD\t45000\t0\nK\t10\t0\nK\t20\t0\nK\t45\t0\nC\t1\t10000\nM\t1\t2\t0\nT\tF\t0\t0\nT\tF\t0\t0\nC\t1\t20\nT\tF\t0\t1000000\nT\tF\t0\t1001000\nT\tF\t0\t1002000\nT\tF\t0\t1003000\nT\tF\t0\t1004000\nT\tF\t0\t1005000\nT\tF\t0\t1006000\nT\tF\t0\t1007000\nT\tF\t0\t1008000\nT\tF\t0\t1009000\nT\tF\t0\t100a000\nT\tF\t0\t100b000\nT\tF\t0\t100c000\nT\tF\t0\t100d000\nT\tF\t0\t100e000\nT\tF\t0\t100f000\nT\tF\t0\t1010000\nT\tF\t0\t1011000\nT\tF\t0\t1012000\nT\tF\t0\t1013000\nT\tF\t0\t1014000\nT\tF\t0\t1015000\nT\tF\t0\t1016000\nT\tF\t0\t1017000\nT\tF\t0\t1018000\nT\tF\t0\t1019000\nT\tF\t0\t101a000\nT\tF\t0\t101b000\nT\tF\t0\t101c000\nT\tF\t0\t101d000\nT\tF\t0\t101e000\nT\tF\t0\t101f000\nT\tF\t0\t1020000\nT\tF\t0\t1021000\nT\tF\t0\t1022000\nT\tF\t0\t1023000\nT\tF\t0\t1024000\nT\tF\t0\t1025000\nT\tF\t0\t1026000\nT\tF\t0\t1027000\nT\tF\t0\t1028000\nT\tF\t0\t1029000\nT\tF\t0\t102a000\nT\tF\t0\t102b000\nT\tF\t0\t102c000\nT\tF\t0\t102d000\nT\tF\t0\t102e000\nT\tF\t0\t102f000\nT\tF\t0\t1030000\nT\tF\t0\t1031000\nT\tF\t0\t1032000\nT\tF\t0\t1033000\nT\tF\t0\t1034000\nT\tF\t0\t1035000\nT\tF\t0\t1036000\nT\tF\t0\t1037000\nT\tF\t0\t1038000\nT\tF\t0\t1039000\nT\tF\t0\t103a000\nT\tF\t0\t103b000\nT\tF\t0\t103c000\nT\tF\t0\t103d000\nT\tF\t0\t103e000\nT\tF\t0\t103f000\nC\t1\t10000\nT\tF\t0\t0\nT\tF\t0\t0\n",
            "10\tR\t45000\t2\n11\tR\t45000\t0\n13\tE\t5\taddressing\t0\n14\tE\t5\taddressing\t0\n15\tE\t5\taddressing\t0\n16\tE\t5\taddressing\t0\n17\tE\t5\taddressing\t0\n18\tE\t5\taddressing\t0\n19\tE\t5\taddressing\t0\n20\tE\t5\taddressing\t0\n21\tE\t5\taddressing\t0\n22\tE\t5\taddressing\t0\n23\tE\t5\taddressing\t0\n24\tE\t5\taddressing\t0\n25\tE\t5\taddressing\t0\n26\tE\t5\taddressing\t0\n27\tE\t5\taddressing\t0\n28\tE\t5\taddressing\t0\n29\tE\t5\taddressing\t0\n30\tE\t5\taddressing\t0\n31\tE\t5\taddressing\t0\n32\tE\t5\taddressing\t0\n33\tE\t5\taddressing\t0\n34\tE\t5\taddressing\t0\n35\tE\t5\taddressing\t0\n36\tE\t5\taddressing\t0\n37\tE\t5\taddressing\t0\n38\tE\t5\taddressing\t0\n39\tE\t5\taddressing\t0\n40\tE\t5\taddressing\t0\n41\tE\t5\taddressing\t0\n42\tE\t5\taddressing\t0\n43\tE\t5\taddressing\t0\n44\tE\t5\taddressing\t0\n45\tE\t5\taddressing\t0\n46\tE\t5\taddressing\t0\n47\tE\t5\taddressing\t0\n48\tE\t5\taddressing\t0\n49\tE\t5\taddressing\t0\n50\tE\t5\taddressing\t0\n51\tE\t5\taddressing\t0\n52\tE\t5\taddressing\t0\n53\tE\t5\taddressing\t0\n54\tE\t5\taddressing\t0\n55\tE\t5\taddressing\t0\n56\tE\t5\taddressing\t0\n57\tE\t5\taddressing\t0\n58\tE\t5\taddressing\t0\n59\tE\t5\taddressing\t0\n60\tE\t5\taddressing\t0\n61\tE\t5\taddressing\t0\n62\tE\t5\taddressing\t0\n63\tE\t5\taddressing\t0\n64\tE\t5\taddressing\t0\n65\tE\t5\taddressing\t0\n66\tE\t5\taddressing\t0\n67\tE\t5\taddressing\t0\n68\tE\t5\taddressing\t0\n69\tE\t5\taddressing\t0\n70\tE\t5\taddressing\t0\n71\tE\t5\taddressing\t0\n72\tE\t5\taddressing\t0\n73\tE\t5\taddressing\t0\n74\tE\t5\taddressing\t0\n75\tE\t5\taddressing\t0\n76\tE\t5\taddressing\t0\n78\tR\t45000\t2\n79\tR\t45000\t0\n",
        ),
        // a purge forgets a frame that a store has changed, a load does not
        (
            "RUN\t1\nD\t10000\t20000\nD\t20000\t45000\nD\t45000\t0\nD\t46000\t0\nK\t10\t0\nK\t20\t0\nK\t45\t0\nK\t46\t0\nC\t1\t10000\nM\t1\t2\t0\nT\tF\t0\t0\nW\t20000\t46000\nT\tF\t0\t0\nC\t1\t10000\nT\tF\t0\t0\nZ\tA\nT\tF\t0\t0\nZ\tT\nT\tF\t0\t0\n",
            "12\tR\t45000\t2\n13\tW\n14\tR\t45000\t0\n16\tR\t45000\t0\n17\tZ\n18\tR\t45000\t0\n19\tZ\n20\tR\t46000\t2\n",
        ),
        // a refused prefix purges nothing, a lawful one both sources
        (
            "RUN\t1\nD\t10000\t20000\nD\t20000\t45000\nD\t45000\t0\nD\t46000\t0\nK\t10\t0\nK\t20\t0\nK\t45\t0\nK\t46\t0\nC\t1\t10000\nM\t1\t2\t0\nT\tF\t0\t0\nW\t20000\t46000\nX\t1000\nT\tF\t0\t0\nX\t0\nT\tF\t0\t0\n",
            "12\tR\t45000\t2\n13\tW\n14\tE\t202\tbad-prefix\t0\n15\tR\t45000\t0\n17\tR\t46000\t2\n",
        ),
        // one to five stores between two purges in mode 1
        (
            "RUN\t1\nD\t10000\t20000\nD\t20000\t45000\nD\t45000\t0\nD\t46000\t0\nD\t47000\t0\nD\t48000\t0\nD\t49000\t0\nD\t4a000\t0\nK\t10\t0\nK\t20\t0\nK\t45\t0\nK\t46\t0\nK\t47\t0\nK\t48\t0\nK\t49\t0\nK\t4a\t0\nC\t1\t10000\nM\t1\t2\t0\nT\tF\t0\t0\nW\t20000\t46000\nT\tF\t0\t0\nZ\tT\nT\tF\t0\t0\nT\tF\t0\t0\nW\t20000\t46000\nW\t20000\t47000\nT\tF\t0\t0\nZ\tT\nT\tF\t0\t0\nT\tF\t0\t0\nW\t20000\t46000\nW\t20000\t47000\nW\t20000\t48000\nT\tF\t0\t0\nZ\tT\nT\tF\t0\t0\nT\tF\t0\t0\nW\t20000\t46000\nW\t20000\t47000\nW\t20000\t48000\nW\t20000\t49000\nT\tF\t0\t0\nZ\tT\nT\tF\t0\t0\nT\tF\t0\t0\nW\t20000\t46000\nW\t20000\t47000\nW\t20000\t48000\nW\t20000\t49000\nW\t20000\t4a000\nT\tF\t0\t0\nZ\tT\nT\tF\t0\t0\n",
            "20\tR\t45000\t2\n21\tW\n22\tR\t45000\t0\n23\tZ\n24\tR\t46000\t2\n25\tR\t46000\t0\n26\tW\n27\tW\n28\tR\t46000\t0\n29\tZ\n30\tR\t47000\t2\n31\tR\t47000\t0\n32\tW\n33\tW\n34\tW\n35\tR\t47000\t0\n36\tZ\n37\tR\t48000\t2\n38\tR\t48000\t0\n39\tW\n40\tW\n41\tW\n42\tW\n43\tR\t48000\t0\n44\tZ\n45\tR\t49000\t2\n46\tR\t49000\t0\n47\tW\n48\tW\n49\tW\n50\tW\n51\tW\n52\tR\t49000\t0\n53\tZ\n54\tR\t4a000\t2\n",
        ),
        // one to five stores between two purges in mode 3
        (
            "RUN\t1\nD\t10000\t20000\nD\t20000\t45000\nD\t45000\t0\nD\t46000\t0\nD\t47000\t0\nD\t48000\t0\nD\t49000\t0\nD\t4a000\t0\nK\t10\t0\nK\t20\t0\nK\t45\t0\nK\t46\t0\nK\t47\t0\nK\t48\t0\nK\t49\t0\nK\t4a\t0\nC\t7\t10000\nM\t3\t2\t0\nT\tF\t0\t0\nW\t20000\t46000\nT\tF\t0\t0\nZ\tT\nT\tF\t0\t0\nT\tF\t0\t0\nW\t20000\t46000\nW\t20000\t47000\nT\tF\t0\t0\nZ\tT\nT\tF\t0\t0\nT\tF\t0\t0\nW\t20000\t46000\nW\t20000\t47000\nW\t20000\t48000\nT\tF\t0\t0\nZ\tT\nT\tF\t0\t0\nT\tF\t0\t0\nW\t20000\t46000\nW\t20000\t47000\nW\t20000\t48000\nW\t20000\t49000\nT\tF\t0\t0\nZ\tT\nT\tF\t0\t0\nT\tF\t0\t0\nW\t20000\t46000\nW\t20000\t47000\nW\t20000\t48000\nW\t20000\t49000\nW\t20000\t4a000\nT\tF\t0\t0\nZ\tT\nT\tF\t0\t0\n",
            "20\tR\t45000\t2\n21\tW\n22\tR\t45000\t0\n23\tZ\n24\tR\t46000\t2\n25\tR\t46000\t0\n26\tW\n27\tW\n28\tR\t46000\t0\n29\tZ\n30\tR\t47000\t2\n31\tR\t47000\t0\n32\tW\n33\tW\n34\tW\n35\tR\t47000\t0\n36\tZ\n37\tR\t48000\t2\n38\tR\t48000\t0\n39\tW\n40\tW\n41\tW\n42\tW\n43\tR\t48000\t0\n44\tZ\n45\tR\t49000\t2\n46\tR\t49000\t0\n47\tW\n48\tW\n49\tW\n50\tW\n51\tW\n52\tR\t49000\t0\n53\tZ\n54\tR\t4a000\t2\n",
        ),
        // one to five stores between two purges in mode 4
        (
            "RUN\t1\nD\t10000\t20000\nD\t20000\t45000\nD\t45000\t0\nD\t46000\t0\nD\t47000\t0\nD\t48000\t0\nD\t49000\t0\nD\t4a000\t0\nK\t10\t0\nK\t20\t0\nK\t45\t0\nK\t46\t0\nK\t47\t0\nK\t48\t0\nK\t49\t0\nK\t4a\t0\nC\td\t10000\nM\t4\t2\t0\nT\tF\t0\t0\nW\t20000\t46000\nT\tF\t0\t0\nZ\tT\nT\tF\t0\t0\nT\tF\t0\t0\nW\t20000\t46000\nW\t20000\t47000\nT\tF\t0\t0\nZ\tT\nT\tF\t0\t0\nT\tF\t0\t0\nW\t20000\t46000\nW\t20000\t47000\nW\t20000\t48000\nT\tF\t0\t0\nZ\tT\nT\tF\t0\t0\nT\tF\t0\t0\nW\t20000\t46000\nW\t20000\t47000\nW\t20000\t48000\nW\t20000\t49000\nT\tF\t0\t0\nZ\tT\nT\tF\t0\t0\nT\tF\t0\t0\nW\t20000\t46000\nW\t20000\t47000\nW\t20000\t48000\nW\t20000\t49000\nW\t20000\t4a000\nT\tF\t0\t0\nZ\tT\nT\tF\t0\t0\n",
            "20\tR\t45000\t2\n21\tW\n22\tR\t45000\t0\n23\tZ\n24\tR\t46000\t2\n25\tR\t46000\t0\n26\tW\n27\tW\n28\tR\t46000\t0\n29\tZ\n30\tR\t47000\t2\n31\tR\t47000\t0\n32\tW\n33\tW\n34\tW\n35\tR\t47000\t0\n36\tZ\n37\tR\t48000\t2\n38\tR\t48000\t0\n39\tW\n40\tW\n41\tW\n42\tW\n43\tR\t48000\t0\n44\tZ\n45\tR\t49000\t2\n46\tR\t49000\t0\n47\tW\n48\tW\n49\tW\n50\tW\n51\tW\n52\tR\t49000\t0\n53\tZ\n54\tR\t4a000\t2\n",
        ),
        // one to five stores between two purges in access-register mode
        (
            "RUN\t1\nD\t1010\t200000000000\nD\t2020\t0\nD\t2028\t400000000000\nD\t4000\t0\nD\t4008\t10000\nD\t4010\t0\nD\t10000\t20000\nD\t20000\t45000\nD\t45000\t0\nD\t46000\t0\nD\t47000\t0\nD\t48000\t0\nD\t49000\t0\nD\t4a000\t0\nK\t1\t0\nK\t2\t0\nK\t4\t0\nK\t10\t0\nK\t20\t0\nK\t45\t0\nK\t46\t0\nK\t47\t0\nK\t48\t0\nK\t49\t0\nK\t4a\t0\nC\t2\t1000\nA\t1\t2\nM\t2\t2\t0\nT\tF\t1\t0\nW\t20000\t46000\nT\tF\t1\t0\nZ\tT\nT\tF\t1\t0\nT\tF\t1\t0\nW\t20000\t46000\nW\t20000\t47000\nT\tF\t1\t0\nZ\tT\nT\tF\t1\t0\nT\tF\t1\t0\nW\t20000\t46000\nW\t20000\t47000\nW\t20000\t48000\nT\tF\t1\t0\nZ\tT\nT\tF\t1\t0\nT\tF\t1\t0\nW\t20000\t46000\nW\t20000\t47000\nW\t20000\t48000\nW\t20000\t49000\nT\tF\t1\t0\nZ\tT\nT\tF\t1\t0\nT\tF\t1\t0\nW\t20000\t46000\nW\t20000\t47000\nW\t20000\t48000\nW\t20000\t49000\nW\t20000\t4a000\nT\tF\t1\t0\nZ\tT\nT\tF\t1\t0\n",
            "30\tR\t45000\t8\n31\tW\n32\tR\t45000\t0\n33\tZ\n34\tR\t46000\t2\n35\tR\t46000\t0\n36\tW\n37\tW\n38\tR\t46000\t0\n39\tZ\n40\tR\t47000\t2\n41\tR\t47000\t0\n42\tW\n43\tW\n44\tW\n45\tR\t47000\t0\n46\tZ\n47\tR\t48000\t2\n48\tR\t48000\t0\n49\tW\n50\tW\n51\tW\n52\tW\n53\tR\t48000\t0\n54\tZ\n55\tR\t49000\t2\n56\tR\t49000\t0\n57\tW\n58\tW\n59\tW\n60\tW\n61\tW\n62\tR\t49000\t0\n63\tZ\n64\tR\t4a000\t2\n",
        ),
        // one to five stores between two purges in mode 0, where they matter to nothing
        (
            "RUN\t1\nD\t10000\t20000\nD\t20000\t45000\nD\t45000\t0\nD\t46000\t0\nD\t47000\t0\nD\t48000\t0\nD\t49000\t0\nD\t4a000\t0\nD\t0\t7\nK\t10\t0\nK\t20\t0\nK\t45\t0\nK\t46\t0\nK\t47\t0\nK\t48\t0\nK\t49\t0\nK\t4a\t0\nK\t0\t0\nM\t0\t2\t0\nT\tF\t0\t0\nW\t20000\t46000\nT\tF\t0\t0\nZ\tT\nT\tF\t0\t0\nT\tF\t0\t0\nW\t20000\t46000\nW\t20000\t47000\nT\tF\t0\t0\nZ\tT\nT\tF\t0\t0\nT\tF\t0\t0\nW\t20000\t46000\nW\t20000\t47000\nW\t20000\t48000\nT\tF\t0\t0\nZ\tT\nT\tF\t0\t0\nT\tF\t0\t0\nW\t20000\t46000\nW\t20000\t47000\nW\t20000\t48000\nW\t20000\t49000\nT\tF\t0\t0\nZ\tT\nT\tF\t0\t0\nT\tF\t0\t0\nW\t20000\t46000\nW\t20000\t47000\nW\t20000\t48000\nW\t20000\t49000\nW\t20000\t4a000\nT\tF\t0\t0\nZ\tT\nT\tF\t0\t0\n",
            "21\tR\t0\t0\n22\tW\n23\tR\t0\t0\n24\tZ\n25\tR\t0\t0\n26\tR\t0\t0\n27\tW\n28\tW\n29\tR\t0\t0\n30\tZ\n31\tR\t0\t0\n32\tR\t0\t0\n33\tW\n34\tW\n35\tW\n36\tR\t0\t0\n37\tZ\n38\tR\t0\t0\n39\tR\t0\t0\n40\tW\n41\tW\n42\tW\n43\tW\n44\tR\t0\t0\n45\tZ\n46\tR\t0\t0\n47\tR\t0\t0\n48\tW\n49\tW\n50\tW\n51\tW\n52\tW\n53\tR\t0\t0\n54\tZ\n55\tR\t0\t0\n",
        ),
        // stores between purges in access-register mode
        (
            "RUN\t1\nD\t1010\t200000000000\nD\t2020\t0\nD\t2028\t400000000000\nD\t4000\t0\nD\t4008\t10000\nD\t4010\t0\nD\t10000\t20000\nD\t20000\t45000\nD\t45000\t0\nK\t1\t0\nK\t2\t0\nK\t4\t0\nK\t10\t0\nK\t20\t0\nK\t45\t0\nC\t2\t1000\nA\t1\t2\nM\t2\t2\t0\nT\tF\t1\t0\nW\t20000\t45200\nW\t4008\t10000\nT\tS\t1\t0\nZ\tT\nT\tS\t1\t0\nW\t20000\t45000\nW\t2020\t100000000000000\nZ\tA\nT\tF\t1\t0\n",
            "20\tR\t45000\t8\n21\tW\n22\tW\n23\tR\t45000\t0\n24\tZ\n25\tE\t4P\tpage\t2\n26\tW\n27\tW\n28\tZ\n29\tR\t45000\t6\n",
        ),
    ];

    // The listing of a text with the sources of `listrun`.
    fn listed(heap: Global, text: &str) -> Result<String, AllocError> {
        let mut sources = Sources {
            access: listing::stack(),
            page: listing::stack(),
        };
        listing::list(heap, text.as_bytes(), &mut sources)
    }

    fn lists_as_written(rt: &(impl Abort + AllocGlobal), cases: &[Case]) -> Result<(), Fail> {
        for case in cases.iter() {
            let text = case.0;
            let listing = listed(rt.alloc(), text)?;
            assert_eq!(rt; listing.as_str(), case.1, "{}", text);
        }
        Ok(())
    }

    // The header, and one line over and over.
    fn repeated(heap: Global, line: &str, n: usize) -> Result<String, AllocError> {
        let mut text = String::from_str(heap, "RUN\t1\n")?;
        for _ in 0..n {
            text.push_str(line)?;
        }
        Ok(text)
    }

    #[test]
    fn texts_at_their_limits(rt: HostRuntime) -> Result<(), Fail> {
        let cases = [
            ("D\t0\t0\n", 1024, ""),
            ("D\t0\t0\n", 1025, "1026\tE\t206\ttoo-much\t0\n"),
            ("K\t0\t0\n", 256, ""),
            ("K\t0\t0\n", 257, "258\tE\t206\ttoo-much\t0\n"),
            ("X\t0\n", 16382, ""),
            ("X\t0\n", 16383, "1\tE\t206\ttoo-much\t0\n"),
        ];
        for case in cases.iter() {
            let text = repeated(rt.alloc(), case.0, case.1)?;
            let listing = listed(rt.alloc(), text.as_str())?;
            assert_eq!(rt; listing.as_str(), case.2, "{}", case.0);
        }
        Ok(())
    }

    #[test]
    fn texts_list_as_written(rt: HostRuntime) -> Result<(), Fail> {
        lists_as_written(&rt, &CASES)
    }

    #[test]
    fn held_answers_list_as_written(rt: HostRuntime) -> Result<(), Fail> {
        lists_as_written(&rt, &HELD)
    }
}
